use crate::{FarPlan, FarSource, bring, gather};
use arrayvec::ArrayVec;
use orc_ops::Far;
use x86_ins::Gpr;

#[test]
fn code_of_four_values(rt: HostRuntime) {
    let mut scalars = ArrayVec::new();
    scalars.push(64);
    scalars.push(80);
    let plan = FarPlan {
        array: 0,
        scalars,
        index: 8,
        work: 16,
        scratch: [0, 1, 2],
        odd: None,
    };
    let Ok(list) = gather(rt.alloc(), Far::Ldreslinb, 4, &plan) else {
        panic!(rt; "no memory");
    };
    assert_eq!(rt; list.len(), 104);
}

#[test]
fn code_of_four_values_inside_a_turn(rt: HostRuntime) {
    let mut scalars = ArrayVec::new();
    scalars.push(64);
    scalars.push(80);
    let source = FarSource {
        far: Far::Ldreslinb,
        array: 0,
        scalars,
        index: 8,
        work: 16,
        block: 24,
        pointer: Gpr { number: 6 },
        ahead: 0,
    };
    let Ok(list) = bring(rt.alloc(), &source, 4) else {
        panic!(rt; "no memory");
    };
    assert_eq!(rt; list.len(), 111);
}
