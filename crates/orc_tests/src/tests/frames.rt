//! The frame of a function that stores a parameter plus a number, and has a sum.
use orc_frame::layout;
use orc_text::read;
use std::alloc::AllocError;
use std::process::Abort;

#[test]
fn a_function_has_a_frame(rt: HostRuntime) -> Result<(), AllocError> {
    let text = ".function f\n.dest 2 d1\n.accumulator 2 a1\n.param 2 p1\naddw d1, p1, 7\n";
    let Ok(program) = read(rt.alloc(), text.as_bytes()) else {
        panic!(rt; "a fault");
    };
    let [f] = program.functions.as_slice() else {
        panic!(rt; "one function");
    };
    let l = layout(f);
    assert_eq!(rt; l.patterns.len(), 2);
    assert_eq!(rt; l.params.as_slice(), [2].as_slice());
    assert_eq!(rt; l.acc_sizes.as_slice(), [2].as_slice());
    assert_eq!(rt; l.pattern_at.as_slice(), [0, 16].as_slice());
    assert_eq!(rt; l.sum_at.as_slice(), [768].as_slice());
    Ok(())
}
