use orc_bits::Part;
use orc_emul::Accs;
use orc_job::{EndLine, Field, Job, JobError, Outcome, fit, one_reading, print_result, read_job};
use orc_program::Place;
use sqlite_items::Items;
use std::test::Fail;
use x86_ins::Why;

// A job of a copy of three bytes whose rows lie backwards.
const JOB: &str = "{\"about\":\"a field that isn't read\",\"function\":\"copy\",\"n\":3,\"m\":1,\
    \"arrays\":[{\"base\":4096,\"stride\":0},{\"base\":8192,\"stride\":-3}],\
    \"params\":[-1,18446744073709551615],\
    \"memory\":[{\"at\":4096,\"bytes\":\"000000\"},{\"at\":8192,\"bytes\":\"01Ff80\"}],\"budget\":1000}\n";

#[test]
fn refusals(rt: HostRuntime) -> Result<(), Fail> {
    one_reading();
    let bad = |field| JobError::BadField { field };
    let rows = [
        ("{", JobError::NotJson),
        (
            "{\"n\":true}",
            JobError::Missing {
                field: Field::Function,
            },
        ),
        ("{\"function\":\"1f\"}", bad(Field::Function)),
        ("{\"function\":\"f\",\"n\":3.0}", bad(Field::N)),
        (
            "{\"function\":\"f\",\"n\":1,\"m\":1,\"arrays\":[{\"base\":1}]}",
            bad(Field::Arrays),
        ),
        (
            "{\"function\":\"f\",\"n\":2097152,\"m\":2097152,\"arrays\":[],\"params\":[],\"memory\":[],\"budget\":1}",
            JobError::TooLarge { field: Field::N },
        ),
        (
            "{\"function\":\"f\",\"n\":1,\"m\":1,\"arrays\":[],\"params\":[],\
            \"memory\":[{\"at\":4096,\"bytes\":\"0000\"},{\"at\":4097,\"bytes\":\"01\"}],\"budget\":1}",
            JobError::Overlap,
        ),
    ];
    for (text, want) in rows {
        assert_eq!(rt;
            read_job(rt.alloc(), text.as_bytes()).err(),
            Some(want),
            "{text}"
        );
    }
    Ok(())
}

#[test]
fn jobs_and_results(rt: HostRuntime) -> Result<(), Fail> {
    let alloc = rt.alloc();
    let job = read_job(alloc, JOB.as_bytes())?;
    assert_eq!(rt; job.function.as_slice(), b"copy".as_slice());
    let places = [
        Place {
            base: 4096,
            stride: 0,
        },
        Place {
            base: 8192,
            stride: -3,
        },
    ];
    assert_eq!(rt; job.call.arrays.as_slice(), places.as_slice());
    assert_eq!(rt; job.call.params.as_slice(), [u64::MAX, u64::MAX].as_slice());
    assert_eq!(rt; fit(&job, 2, 2), Ok(()));
    assert_eq!(rt;
        fit(&job, 3, 3),
        Err(JobError::BadField {
            field: Field::Arrays
        })
    );
    let mut accs = Accs::new();
    accs.push(24464);
    accs.push(u64::MAX);
    let Job { memory, .. } = job;
    let mut outcome = Outcome {
        end: EndLine::Emulated,
        accs,
        memory,
    };
    outcome.memory.push(Part {
        at: 65536,
        bytes: Items::new(alloc),
    })?;
    let rest =
        "acc 0 24464\nacc 1 18446744073709551615\nmem 4096 000000\nmem 8192 01ff80\nmem 65536 \n";
    let trap = EndLine::Trap {
        why: Why::NoRow,
        at: 0x7000_0000_00ab,
        steps: 12,
    };
    let unmapped = EndLine::Unmapped {
        row: 0,
        element: 3,
        at: 8195,
    };
    let ends = [
        (EndLine::Emulated, "end emulated\n", rest),
        (EndLine::Returned { steps: 166 }, "end returned 166\n", rest),
        (trap, "end trap NoRow 0x7000000000ab 12\n", rest),
        (unmapped, "end unmapped 0 3 8195\n", ""),
    ];
    for (end, first, rest) in ends {
        outcome.end = end;
        let want = format!(in alloc; "{first}{rest}")?;
        assert_eq!(rt; print_result(alloc, &outcome)?.as_slice(), want.as_bytes());
    }
    Ok(())
}
