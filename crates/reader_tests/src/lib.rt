//! Tests of what the reader leaves in the caller's place, and of formulas with shared operands.
#![tactic(auto)]

#[cfg(test)]
mod tests {
    use fault::{Failure, Fault, Place, SheetFault};
    use reader::{read, smallest};
    use sheet::Sheet;
    use std::alloc::Global;
    use std::process::Abort;
    use std::test::Fail;

    // A bit, the formulas true and bit 0, the second as the invariant, and the height bound 3.
    const LAWFUL: &[u8] = b"B\x01L\x00\x00\x00L\x01\x00\x00V\x01H\x03E";

    fn expect_fault(
        rt: &impl Abort,
        r: Result<(), Failure>,
        fault: SheetFault,
        record: usize,
        byte: usize,
    ) {
        let place = Place { record, byte };
        assert_eq!(rt; r, Err(Failure::Fault(Fault::Sheet(fault, place))));
    }

    fn is_smallest(s: &Sheet) -> bool {
        s.parts.formulas.len() == 1 && s.parts.bits.len() == 0 && s.invariant == 0 && s.bound == 0
    }

    #[test]
    fn place_holds_the_smallest_sheet_at_first(rt: HostRuntime) -> Result<(), Fail> {
        let place = smallest(rt.alloc())?;
        assert!(rt; is_smallest(&place));
        Ok(())
    }

    #[test]
    fn place_keeps_its_sheet_after_a_fault(rt: HostRuntime) -> Result<(), Fail> {
        let heap = rt.alloc();
        let mut place = smallest(heap)?;
        expect_fault(
            &rt,
            read(b"", heap, &mut place),
            SheetFault::Truncated,
            0,
            0,
        );
        assert!(rt; is_smallest(&place));
        read(LAWFUL, heap, &mut place)?;
        assert!(rt; place.bound == 3 && place.invariant == 1);
        expect_fault(
            &rt,
            read(b"L\x00\x00\x00V\x00H\x05E", heap, &mut place),
            SheetFault::BadBody,
            2,
            6,
        );
        assert!(rt; place.bound == 3 && place.invariant == 1);
        assert!(rt; place.parts.bits.len() == 1 && place.parts.formulas.len() == 2);
        Ok(())
    }

    // 64 formulas, each naming the one before twice: 2^63 evaluations if none were remembered.
    fn tower(heap: Global) -> Result<Vec<u8>, Fail> {
        let mut bytes = b"B\x00L\x01\x00\x00".to_vec(heap)?;
        for n in 0..63u8 {
            bytes.extend_from_slice(&[b'L', 5, n, n])?;
        }
        bytes.extend_from_slice(b"V\x3fH\x00E")?;
        Ok(bytes)
    }

    #[test]
    fn shared_operands_are_worked_out_once(rt: HostRuntime) -> Result<(), Fail> {
        let heap = rt.alloc();
        let mut place = smallest(heap)?;
        let bytes = tower(heap)?;
        read(bytes.as_slice(), heap, &mut place)?;
        assert!(rt; place.truth(63, &[true], &[], &[]));
        assert!(rt; !place.truth(63, &[false], &[], &[]));
        let mut table = [false; 64];
        place.truths(&[true], &[], &[], &mut table);
        assert!(rt; table[63] && table[0]);
        Ok(())
    }
}
