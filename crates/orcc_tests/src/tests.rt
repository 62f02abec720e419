mod failures;
mod far;
mod hostile;
mod meaning;
mod opcodes;
mod stated;

ghost use Rattle.std.specs.Prelude.{◌<◌};

use c_read::read_c;
use orc_elf::{ElfCode, ElfEntry, write_elf};
use orc_io::{Buffer, Piece};
use orc_program::Name;
use orcc_top::{Status, orcc};
use sqlite_items::Items;
use std::alloc::{AllocError, Global};
use std::process::Abort;

/// The image of a function `f` without arrays, whose code is `ret`, and a job behind it.
const RETURNS: &[u8] =
    b"ORCI\x01\x01\x01f\x00\x00\x00\x00\x00\x01\x00\x00\x00\xc3{\"function\":\"f\",\"n\":0,\"m\":0,\"arrays\":[],\"params\":[],\"memory\":[],\"budget\":10}";

/// The same with code that lowers RSP by 1,024, stores a word there, and raises it again.
const SMALL_FRAME: &[u8] =
    b"ORCI\x01\x01\x01f\x00\x00\x00\x00\x00\x14\x00\x00\x00\x48\x81\xec\x00\x04\x00\x00\x48\x89\x7c\x24\x08\x48\x81\xc4\x00\x04\x00\x00\xc3{\"function\":\"f\",\"n\":0,\"m\":0,\"arrays\":[],\"params\":[],\"memory\":[],\"budget\":10}";

/// A text that adds rows of bytes.
const ADD8: &str = ".function add8\n.dest 1 d1\n.source 1 s1\n.source 1 s2\naddb d1, s1, s2\n";

/// A text that scales samples, through a temp.
const VOLUME: &str =
    ".function volume\n.dest 2 d1 gint16\n.param 2 p1\n.temp 4 t1\nmulswl t1, d1, p1\nshrsl t1, t1, 11\nconvlw d1, t1\n";

/// A text that isn't its own canonical text.
const DEMO: &str =
    "# demo\n.function f\n.flags 2d\n.dest 2 d1 gint16\naddw d1,d1,0x10L\n.param 4 p1\n";

/// A text of one function that adds bytes in place, and a job.
const ADDS: &[u8] =
    b".function f\n.dest 1 d1\naddb d1, d1, 1\n%%\n{\"function\":\"f\",\"n\":2,\"m\":1,\"arrays\":[{\"base\":4096,\"stride\":0}],\"params\":[],\"memory\":[{\"at\":4096,\"bytes\":\"01ff\"}],\"budget\":1}";

/// What a run left.
#[derive(Drop)]
struct Outcome {
    status: Status,
    output: Vec<u8>,
    notes: Vec<u8>,
    /// Whether a call to the input, to the output or to the notes failed.
    failed: bool,
}

/// What a run talks to.
#[derive(Clone, Copy, PartialEq, Eq)]
enum Stream {
    Input,
    Output,
    Notes,
}

/// A call of a run to one of its streams that fails, counted from 1.
type Failure = Option<(Stream, u64)>;

/// The numbers of the calls to a stream that fail.
fn calls_of(alloc: Global, failure: Failure, stream: Stream) -> Result<Vec<u64>, AllocError> {
    let mut calls = Vec::new(alloc);
    if let Some((failing, call)) = failure
        && failing == stream
    {
        calls.push(call)?;
    }
    Ok(calls)
}

/// Runs on an input and with an output of so much room, where each call moves at most so many bytes.
fn run_with(
    alloc: Global,
    words: &[&str],
    bytes: &[u8],
    room: usize,
    most: usize,
    failure: Failure,
) -> Result<Outcome, AllocError>
    requires { 0 < most }
{
    let mut given = Vec::new(alloc);
    for word in words {
        given.push(word.to_string(alloc)?)?;
    }
    let mut input = Piece {
        bytes: Vec::from_slice(alloc, bytes)?,
        at: 0,
        most,
        fail: calls_of(alloc, failure, Stream::Input)?,
        calls: 0,
        faults: 0,
    };
    let failing_puts = calls_of(alloc, failure, Stream::Output)?;
    let mut output = Buffer::with_room(alloc, room, most, failing_puts)?;
    let failing_notes = calls_of(alloc, failure, Stream::Notes)?;
    let mut notes = Buffer::with_room(alloc, 200, most, failing_notes)?;
    let status = orcc(alloc, given.as_slice(), &mut input, &mut output, &mut notes);
    Ok(Outcome {
        status,
        failed: input.faults > 0 || output.faults > 0 || notes.faults > 0,
        output: output.held,
        notes: notes.held,
    })
}

/// Runs where no call fails.
fn run(alloc: Global, words: &[&str], bytes: &[u8]) -> Result<Outcome, AllocError> {
    run_with(alloc, words, bytes, 60_000, 7, None)
}

#[test]
fn each_command_answers(rt: HostRuntime) -> Result<(), AllocError> {
    // The words, the input, and the status with what is written.
    let rows: [(&[&str], &[u8], Status, &[u8]); 11] = [
        (&["asm"], b"# nothing", Status::Done, b"ORCI\x01\x00"),
        (&["c"], b"# nothing", Status::Done, b"#include <stdint.h>\n"),
        (
            &["check"],
            VOLUME.as_bytes(),
            Status::Done,
            b"volume need 2 lanes 4 cost 30\n",
        ),
        (
            &["check41"],
            VOLUME.as_bytes(),
            Status::Done,
            b"volume need 2 lanes 4 cost 17\n",
        ),
        (
            &["fmt"],
            DEMO.as_bytes(),
            Status::Done,
            b".function f\n.flags 2d\n.dest 2 d1 gint16\n.param 4 p1\naddw d1, d1, 16\n",
        ),
        (
            &["dis"],
            &RETURNS[..18],
            Status::Done,
            b"function f\n00000000 c3 ret\n",
        ),
        (&["run"], RETURNS, Status::Done, b"end returned 1\n"),
        (&["run"], SMALL_FRAME, Status::Done, b"end returned 4\n"),
        (
            &["emulate"],
            ADDS,
            Status::Done,
            b"end emulated\nmem 4096 0200\n",
        ),
        (
            &["emulate"],
            b".function f\nx\n%%\n{",
            Status::Refused,
            b"line 2: UnknownOpcode\n",
        ),
        (
            &[],
            b"",
            Status::Usage,
            b"usage: orcc asm | c | check | fmt | run | emulate | dis | gen S | jobs W S | obj | asm41 | check41 | header | lib | lib41\n",
        ),
    ];
    for (words, input, status, said) in rows {
        let ran = run(rt.alloc(), words, input)?;
        assert_eq!(rt; ran.status, status, "{said:?}");
        if status == Status::Done {
            assert!(rt; ran.output.as_slice() == said, "{said:?}");
        } else {
            assert!(rt; ran.notes.as_slice() == said, "{said:?}");
        }
    }
    Ok(())
}

/// The object of a function `f` whose code is `ret`.
fn returning(rt: &impl Abort, alloc: Global) -> Result<Vec<u8>, AllocError> {
    let mut object = ElfCode::new(alloc);
    let name = Name::new(b"f").expect(rt, "a name");
    let code = Items::from_slice(alloc, &[0xc3])?;
    object.push(ElfEntry { name, code })?;
    write_elf(alloc, &object)
}

#[test]
fn an_object_is_listed_or_refused(rt: HostRuntime) -> Result<(), AllocError> {
    let alloc = rt.alloc();
    // How many bytes are given, the byte at 18, and the status with what is written.
    let rows: [(usize, u8, Status, &str); 3] = [
        (480, 62, Status::Done, "function f\n00000000 c3 ret\n"),
        (479, 62, Status::Refused, "elf: Short 480\n"),
        (480, 3, Status::Refused, "elf: BadField 18\n"),
    ];
    for (length, machine, status, said) in rows {
        let mut object = returning(&rt, alloc)?;
        assert!(rt; 18 < object.len() && length <= object.len());
        object[18] = machine;
        let ran = run(alloc, &["dis"], &object[..length])?;
        assert_eq!(rt; ran.status, status, "{said}");
        if status == Status::Done {
            assert!(rt; ran.output.as_slice() == said.as_bytes(), "{said}");
        } else {
            assert!(rt; ran.notes.as_slice() == said.as_bytes(), "{said}");
        }
    }
    Ok(())
}

#[test]
fn an_object_has_the_code_of_the_image(rt: HostRuntime) -> Result<(), AllocError> {
    let alloc = rt.alloc();
    let text = b".function f\n.dest 1 d1\naddb d1, d1, 1\n";
    let image = run(alloc, &["asm"], text)?;
    let object = run(alloc, &["obj"], text)?;
    assert_eq!(rt; object.status, Status::Done);
    assert!(rt; object.output.as_slice().starts_with(b"\x7fELF\x02\x01\x01"));
    // An image of `f` has 17 bytes before its code. An object has the header, the code up to a multiple of 8, two symbols, the names
    // in 36 bytes, zeros up to a multiple of 8, and five section headers.
    let size = image.output.len();
    assert!(rt; 17 < size && size < 3000);
    assert_eq!(rt;
        object.output.len(),
        64 + (size - 17).next_multiple_of(8) + 48 + 40 + 320
    );
    let lines = run(alloc, &["dis"], image.output.as_slice())?;
    let same = run(alloc, &["dis"], object.output.as_slice())?;
    assert_eq!(rt; same.status, Status::Done);
    assert!(rt; lines.output.as_slice() == same.output.as_slice());
    Ok(())
}

/// The lines of a function that needs eleven values at once: ten temps have a value that is read later where an eleventh is made. It adds ten
/// times the source.
const ELEVEN: &str =
    ".dest 1 d1\n.source 1 s1\n.temp 1 t1\n.temp 1 t2\n.temp 1 t3\n.temp 1 t4\n.temp 1 t5\n.temp 1 t6\n.temp 1 t7\n.temp 1 t8\n.temp 1 t9\n.temp 1 t10\nloadb t1, s1\nloadb t2, s1\nloadb t3, s1\nloadb t4, s1\nloadb t5, s1\nloadb t6, s1\nloadb t7, s1\nloadb t8, s1\nloadb t9, s1\nloadb t10, s1\naddb t1, t1, t2\naddb t1, t1, t3\naddb t1, t1, t4\naddb t1, t1, t5\naddb t1, t1, t6\naddb t1, t1, t7\naddb t1, t1, t8\naddb t1, t1, t9\naddb t1, t1, t10\ncopyb d1, t1\n";

/// A text with 76 temps that splits the source so many times, each time into two of them, and then adds these by twos.
fn splits(alloc: Global, times: usize) -> Result<Vec<u8>, AllocError> {
    let mut text = Vec::from_slice(alloc, b".function q\n.dest 1 d1\n.source 2 s1\n")?;
    for k in 1..77 {
        text.extend_from_slice(format!(in alloc; ".temp 1 t{k}\n")?.as_bytes())?;
    }
    for k in 0..times {
        let (first, second) = (
            k.wrapping_mul(2).wrapping_add(1),
            k.wrapping_mul(2).wrapping_add(2),
        );
        text.extend_from_slice(format!(in alloc; "splitwb t{first}, t{second}, s1\n")?.as_bytes())?;
    }
    for k in 0..times {
        let (first, second) = (
            k.wrapping_mul(2).wrapping_add(1),
            k.wrapping_mul(2).wrapping_add(2),
        );
        text.extend_from_slice(format!(in alloc; "addb d1, t{first}, t{second}\n")?.as_bytes())?;
    }
    Ok(text)
}

#[test]
fn as_many_values_as_there_are_places(rt: HostRuntime) -> Result<(), AllocError> {
    let alloc = rt.alloc();
    let mut eleven = Vec::from_slice(alloc, b".function p\n")?;
    eleven.extend_from_slice(ELEVEN.as_bytes())?;
    // The text, how `asm` ends with what it notes, and what `check` writes.
    let rows = [
        (eleven, Status::Done, "", "p need 11 lanes 16 cost 120\n"),
        (
            splits(alloc, 37)?,
            Status::Done,
            "",
            "q need 74 lanes 8 cost 999\n",
        ),
        (
            splits(alloc, 38)?,
            Status::Refused,
            "line 117: Pressure 76\n",
            "q need 76 lanes 8 cost 1026\n",
        ),
    ];
    for (text, status, notes, figures) in &rows {
        let ran = run(alloc, &["asm"], text.as_slice())?;
        assert_eq!(rt; ran.status, *status);
        assert!(rt; ran.notes.as_slice() == notes.as_bytes());
        let checked = run(alloc, &["check"], text.as_slice())?;
        assert!(rt; checked.output.as_slice() == figures.as_bytes());
        // C has no places.
        let translated = run(alloc, &["c"], text.as_slice())?;
        assert_eq!(rt; translated.status, Status::Done);
        assert!(rt; read_c(alloc, translated.output.as_slice()).is_ok());
    }
    Ok(())
}

/// What the code of a text does with a job: the text of its function `f`, the job but for its function and its budget, and the result but for
/// the steps.
const RUNS: [(&str, &str, &str); 18] = [
    (
        ".dest 1 d1\n.source 1 s1\n.source 1 s2\naddb d1, s1, s2\n",
        r#""n":3,"m":1,"arrays":[{"base":4096,"stride":0},{"base":8192,"stride":0},{"base":12288,"stride":0}],"params":[],"memory":[{"at":4096,"bytes":"000000"},{"at":8192,"bytes":"01ff80"},{"at":12288,"bytes":"010180"}]"#,
        "\nmem 4096 020000\nmem 8192 01ff80\nmem 12288 010180\n",
    ),
    // A segment that no array has.
    (
        ".dest 1 d1\n.source 1 s1\n.source 1 s2\naddb d1, s1, s2\n",
        r#""n":3,"m":1,"arrays":[{"base":4096,"stride":0},{"base":8192,"stride":0},{"base":12288,"stride":0}],"params":[],"memory":[{"at":4096,"bytes":"000000"},{"at":8192,"bytes":"01ff80"},{"at":12288,"bytes":"010180"},{"at":20480,"bytes":"aaaaaaaaaaaaaaaaaaaaaaaaaaaaaaaa"}]"#,
        "\nmem 4096 020000\nmem 8192 01ff80\nmem 12288 010180\nmem 20480 aaaaaaaaaaaaaaaaaaaaaaaaaaaaaaaa\n",
    ),
    // Sums of sixteen bits, over fewer elements and more than a register holds.
    (
        ".accumulator 2 a1\n.source 2 s1\naccw a1, s1\n",
        r#""n":3,"m":1,"arrays":[{"base":8192,"stride":0}],"params":[],"memory":[{"at":8192,"bytes":"307530753075"}]"#,
        "\nacc 0 24464\nmem 8192 307530753075\n",
    ),
    (
        ".accumulator 2 a1\n.source 2 s1\naccw a1, s1\n",
        r#""n":19,"m":1,"arrays":[{"base":8192,"stride":0}],"params":[],"memory":[{"at":8192,"bytes":"3075307530753075307530753075307530753075307530753075307530753075307530753075"}]"#,
        "\nacc 0 45712\nmem 8192 3075307530753075307530753075307530753075307530753075307530753075307530753075\n",
    ),
    (
        ".accumulator 2 a1\n.source 2 s1\n.temp 2 t1\nxorw t1, s1, -1\naccw a1, t1\n",
        r#""n":19,"m":1,"arrays":[{"base":8192,"stride":0}],"params":[],"memory":[{"at":8192,"bytes":"0000000000000000000000000000000000000000000000000000000000000000000000000000"}]"#,
        "\nacc 0 65517\nmem 8192 0000000000000000000000000000000000000000000000000000000000000000000000000000\n",
    ),
    // Rows are done in order, and may overlap.
    (
        ".flags 2d\n.dest 1 d1\n.source 1 s1\ncopyb d1, s1\n",
        r#""n":2,"m":3,"arrays":[{"base":4096,"stride":1},{"base":8196,"stride":-2}],"params":[],"memory":[{"at":4096,"bytes":"00000000"},{"at":8192,"bytes":"010203040506"}]"#,
        "\nmem 4096 05030102\nmem 8192 010203040506\n",
    ),
    (
        ".flags 2d\n.dest 1 d1\n.source 1 s1\naddb d1, d1, s1\n",
        r#""n":2,"m":3,"arrays":[{"base":4096,"stride":0},{"base":8196,"stride":-2}],"params":[],"memory":[{"at":4096,"bytes":"0000"},{"at":8192,"bytes":"010203040506"}]"#,
        "\nmem 4096 090c\nmem 8192 010203040506\n",
    ),
    // Counts that pass the element's bits, as numbers and from a parameter.
    (
        ".dest 1 d1\n.dest 1 d2\n.source 1 s1\n.param 1 p1\nshrub d1, s1, 9\nshrub d2, s1, p1\n",
        r#""n":1,"m":1,"arrays":[{"base":4096,"stride":0},{"base":4112,"stride":0},{"base":8192,"stride":0}],"params":[9],"memory":[{"at":4096,"bytes":"55"},{"at":4112,"bytes":"55"},{"at":8192,"bytes":"ff"}]"#,
        "\nmem 4096 00\nmem 4112 00\nmem 8192 ff\n",
    ),
    (
        ".dest 2 d1\n.dest 2 d2\n.source 2 s1\n.param 1 p1\nshrsw d1, s1, 40\nshrsw d2, s1, p1\n",
        r#""n":1,"m":1,"arrays":[{"base":4096,"stride":0},{"base":4112,"stride":0},{"base":8192,"stride":0}],"params":[40],"memory":[{"at":4096,"bytes":"5555"},{"at":4112,"bytes":"5555"},{"at":8192,"bytes":"0080"}]"#,
        "\nmem 4096 ffff\nmem 4112 ffff\nmem 8192 0080\n",
    ),
    (
        ".dest 8 d1\n.dest 8 d2\n.source 8 s1\n.param 1 p1\nshlq d1, s1, 64\nshlq d2, s1, p1\n",
        r#""n":1,"m":1,"arrays":[{"base":4096,"stride":0},{"base":4112,"stride":0},{"base":8192,"stride":0}],"params":[64],"memory":[{"at":4096,"bytes":"5555555555555555"},{"at":4112,"bytes":"5555555555555555"},{"at":8192,"bytes":"0100000000000000"}]"#,
        "\nmem 4096 0000000000000000\nmem 4112 0000000000000000\nmem 8192 0100000000000000\n",
    ),
    // Two results.
    (
        ".dest 1 d1\n.dest 1 d2\n.source 2 s1\nsplitwb d1, d2, s1\n",
        r#""n":1,"m":1,"arrays":[{"base":4096,"stride":0},{"base":4112,"stride":0},{"base":8192,"stride":0}],"params":[],"memory":[{"at":4096,"bytes":"00"},{"at":4112,"bytes":"00"},{"at":8192,"bytes":"3412"}]"#,
        "\nmem 4096 12\nmem 4112 34\nmem 8192 3412\n",
    ),
    // The dest's elements stand at no multiple of their size.
    (
        ".dest 2 d1\n.source 2 s1\n.source 2 s2\naddssw d1, s1, s2\n",
        r#""n":20,"m":1,"arrays":[{"base":4097,"stride":0},{"base":8192,"stride":0},{"base":12288,"stride":0}],"params":[],"memory":[{"at":4097,"bytes":"00000000000000000000000000000000000000000000000000000000000000000000000000000000"},{"at":8192,"bytes":"ff7fff7fff7fff7fff7fff7fff7fff7fff7fff7fff7fff7fff7fff7fff7fff7fff7fff7fff7fff7f"},{"at":12288,"bytes":"01000100010001000100010001000100010001000100010001000100010001000100010001000100"}]"#,
        "\nmem 4097 ff7fff7fff7fff7fff7fff7fff7fff7fff7fff7fff7fff7fff7fff7fff7fff7fff7fff7fff7fff7f\nmem 8192 ff7fff7fff7fff7fff7fff7fff7fff7fff7fff7fff7fff7fff7fff7fff7fff7fff7fff7fff7fff7f\nmem 12288 01000100010001000100010001000100010001000100010001000100010001000100010001000100\n",
    ),
    // The dest and the source are the very same array.
    (
        ".dest 1 d1\n.source 1 s1\naddb d1, s1, s1\naddb d1, s1, 1\n",
        r#""n":1,"m":1,"arrays":[{"base":4096,"stride":0},{"base":4096,"stride":0}],"params":[],"memory":[{"at":4096,"bytes":"03"}]"#,
        "\nmem 4096 07\n",
    ),
    // More values than there are registers, over single elements and a whole register's.
    (
        ELEVEN,
        r#""n":19,"m":1,"arrays":[{"base":4096,"stride":0},{"base":8192,"stride":0}],"params":[],"memory":[{"at":4096,"bytes":"00000000000000000000000000000000000000"},{"at":8192,"bytes":"0001020304050607080910111213141516ff80"}]"#,
        "\nmem 4096 000a141e28323c46505aa0aab4bec8d2dcf600\nmem 8192 0001020304050607080910111213141516ff80\n",
    ),
    // Rows of whole turns, whose first dest begins at a multiple of 16, or doesn't, by its align or not.
    (
        ".n mult 4\n.flags 2d\n.dest 4 d1\n.source 4 s1\naddl d1, s1, 1\n",
        r#""n":4,"m":2,"arrays":[{"base":4096,"stride":20},{"base":8192,"stride":0}],"params":[],"memory":[{"at":4096,"bytes":"00000000000000000000000000000000"},{"at":4116,"bytes":"00000000000000000000000000000000"},{"at":8192,"bytes":"000000000100000002000000ffffffff"}]"#,
        "\nmem 4096 01000000020000000300000000000000\nmem 4116 01000000020000000300000000000000\nmem 8192 000000000100000002000000ffffffff\n",
    ),
    (
        ".n mult 4\n.flags 2d\n.dest 4 d1 align 16\n.source 4 s1\naddl d1, s1, 1\n",
        r#""n":4,"m":2,"arrays":[{"base":4096,"stride":32},{"base":8192,"stride":0}],"params":[],"memory":[{"at":4096,"bytes":"00000000000000000000000000000000"},{"at":4128,"bytes":"00000000000000000000000000000000"},{"at":8192,"bytes":"000000000100000002000000ffffffff"}]"#,
        "\nmem 4096 01000000020000000300000000000000\nmem 4128 01000000020000000300000000000000\nmem 8192 000000000100000002000000ffffffff\n",
    ),
    (
        ".dest 4 d1 align 32\n.source 4 s1\naddl d1, s1, 1\n",
        r#""n":5,"m":1,"arrays":[{"base":4096,"stride":0},{"base":8192,"stride":0}],"params":[],"memory":[{"at":4096,"bytes":"0000000000000000000000000000000000000000"},{"at":8192,"bytes":"000000000100000002000000ffffffff09000000"}]"#,
        "\nmem 4096 010000000200000003000000000000000a000000\nmem 8192 000000000100000002000000ffffffff09000000\n",
    ),
    // The volume kernel.
    (
        ".dest 2 d1\n.param 2 p1\n.temp 4 t1\nmulswl t1, d1, p1\nshrsl t1, t1, 11\nconvlw d1, t1\n",
        r#""n":3,"m":1,"arrays":[{"base":4096,"stride":0}],"params":[1024],"memory":[{"at":4096,"bytes":"e80318fcff7f"}]"#,
        "\nmem 4096 f4010cfeff3f\n",
    ),
];

#[test]
fn code_does_what_its_text_means(rt: HostRuntime) -> Result<(), AllocError> {
    let alloc = rt.alloc();
    for (declared, job, after) in RUNS {
        let mut text = Vec::from_slice(alloc, b".function f\n")?;
        text.extend_from_slice(declared.as_bytes())?;
        for word in ["asm", "asm41"] {
            let image = run(alloc, &[word], text.as_slice())?;
            let mut input = image.output;
            input.extend_from_slice(b"{\"function\":\"f\",")?;
            input.extend_from_slice(job.as_bytes())?;
            input.extend_from_slice(b",\"budget\":100000}")?;
            let ran = run(alloc, &["run"], input.as_slice())?;
            assert_eq!(rt; ran.status, Status::Done, "{word} {declared}");
            let result = ran.output.as_slice();
            assert!(rt; result.starts_with(b"end returned "), "{word} {declared}");
            assert!(rt; result.ends_with(after.as_bytes()), "{word} {declared}");
        }
    }
    Ok(())
}

/// Functions that add a source's elements to a dest's, by the size of an element.
const ADDERS: [(usize, &str); 4] = [
    (
        1,
        ".function f\n.dest 1 d1\n.source 1 s1\naddb d1, d1, s1\n",
    ),
    (
        2,
        ".function f\n.dest 2 d1\n.source 2 s1\naddw d1, d1, s1\n",
    ),
    (
        4,
        ".function f\n.dest 4 d1\n.source 4 s1\naddl d1, d1, s1\n",
    ),
    (
        8,
        ".function f\n.dest 8 d1\n.source 8 s1\naddq d1, d1, s1\n",
    ),
];

/// Counts of elements, less and more than do a row's head, several turns and a tail.
const COUNTS: [(usize, &str); 6] = [
    (0, "0"),
    (1, "1"),
    (15, "15"),
    (16, "16"),
    (17, "17"),
    (37, "37"),
];

/// Sixteen addresses in a row, from a multiple of 16 on.
const BASES: [&str; 16] = [
    "4096", "4097", "4098", "4099", "4100", "4101", "4102", "4103", "4104", "4105", "4106", "4107",
    "4108", "4109", "4110", "4111",
];

/// The bytes of an array: those of a dest before a run, those of a source, and their sums.
#[derive(Clone, Copy)]
enum Row {
    Dest,
    Source,
    Sums,
}

/// Appends the bytes of so many elements of a size in hexadecimal.
fn push_row(text: &mut Vec<u8>, row: Row, count: usize, size: usize) -> Result<(), AllocError> {
    let mut number = 0u8;
    for _ in 0..count {
        for _ in 0..size {
            let low = match row {
                Row::Dest => number % 8,
                Row::Source => number / 8 % 8,
                Row::Sums => number % 8 + number / 8 % 8,
            };
            text.push(b'0')?;
            text.push(b"0123456789abcdef"[low as usize])?;
            number = number.wrapping_add(1);
        }
    }
    Ok(())
}

/// Appends a job of elements of a dest from a base on and of a source, where the arrays' bytes alone are mapped.
fn push_job(
    text: &mut Vec<u8>,
    size: usize,
    count: (usize, &str),
    base: &str,
) -> Result<(), AllocError> {
    text.extend_from_slice(b"{\"function\":\"f\",\"n\":")?;
    text.extend_from_slice(count.1.as_bytes())?;
    text.extend_from_slice(b",\"m\":1,\"arrays\":[{\"base\":")?;
    text.extend_from_slice(base.as_bytes())?;
    text.extend_from_slice(
        b",\"stride\":0},{\"base\":8195,\"stride\":0}],\"params\":[],\"memory\":[{\"at\":",
    )?;
    text.extend_from_slice(base.as_bytes())?;
    text.extend_from_slice(b",\"bytes\":\"")?;
    push_row(text, Row::Dest, count.0, size)?;
    text.extend_from_slice(b"\"},{\"at\":8195,\"bytes\":\"")?;
    push_row(text, Row::Source, count.0, size)?;
    text.extend_from_slice(b"\"}],\"budget\":100000}")?;
    Ok(())
}

/// Appends what a result of such a job says of memory.
fn push_sums(text: &mut Vec<u8>, size: usize, count: usize, base: &str) -> Result<(), AllocError> {
    text.extend_from_slice(b"\nmem ")?;
    text.extend_from_slice(base.as_bytes())?;
    text.push(b' ')?;
    push_row(text, Row::Sums, count, size)?;
    text.extend_from_slice(b"\nmem 8195 ")?;
    push_row(text, Row::Source, count, size)?;
    text.push(b'\n')?;
    Ok(())
}

#[test]
fn rows_are_done_from_every_base(rt: HostRuntime) -> Result<(), AllocError> {
    let alloc = rt.alloc();
    for (size, text) in ADDERS {
        let image = run(alloc, &["asm"], text.as_bytes())?;
        for count in COUNTS {
            for base in BASES {
                let mut input = Vec::from_slice(alloc, image.output.as_slice())?;
                push_job(&mut input, size, count, base)?;
                let ran = run(alloc, &["run"], input.as_slice())?;
                let mut sums = Vec::new(alloc);
                push_sums(&mut sums, size, count.0, base)?;
                assert!(rt;
                    ran.output.as_slice().starts_with(b"end returned "),
                    "{size} {base}"
                );
                assert!(rt;
                    ran.output.as_slice().ends_with(sums.as_slice()),
                    "{size} {base}"
                );
            }
        }
    }
    Ok(())
}

/// The image of a function `f` without arrays, whose code is a byte that begins no instruction, and a job behind it.
const BYTE: &[u8] =
    b"ORCI\x01\x01\x01f\x00\x00\x00\x00\x00\x01\x00\x00\x00\x90{\"function\":\"f\",\"n\":0,\"m\":0,\"arrays\":[],\"params\":[],\"memory\":[],\"budget\":10}";

/// The same, whose code jumps to itself, and a job with a budget of 2.
const JUMPS: &[u8] =
    b"ORCI\x01\x01\x01f\x00\x00\x00\x00\x00\x05\x00\x00\x00\xe9\xfb\xff\xff\xff{\"function\":\"f\",\"n\":0,\"m\":0,\"arrays\":[],\"params\":[],\"memory\":[],\"budget\":2}";

/// A job of the text that adds rows of bytes, with what each array says of its elements.
fn add8_job(alloc: Global, size: &str) -> Result<String, AllocError> {
    format!(in alloc;
        "{{\"function\":\"add8\",\"n\":3,\"m\":1,\"arrays\":[{{\"base\":4096,\"stride\":0{size}}},{{\"base\":8192,\"stride\":0{size}}},{{\"base\":12288,\"stride\":0{size}}}],\"params\":[],\"memory\":[{{\"at\":4096,\"bytes\":\"000000\"}},{{\"at\":8192,\"bytes\":\"01ff80\"}},{{\"at\":12288,\"bytes\":\"010180\"}}],\"budget\":1000}}"
    )
}

/// Whether a line of the output is the prefix and a number of at most so much.
fn has_at_most(output: &[u8], prefix: &str, most: u64) -> bool {
    let Ok(text) = str::from_utf8(output) else {
        return false;
    };
    for line in text.lines() {
        if let Some(number) = line.strip_prefix(prefix) {
            return matches!(number.parse::<u64>(), Ok(n) if n <= most);
        }
    }
    false
}

#[test]
fn parts_are_played(rt: HostRuntime) -> Result<(), AllocError> {
    let alloc = rt.alloc();
    let image = run(alloc, &["asm"], ADD8.as_bytes())?.output;
    let mut unsized_job = Vec::from_slice(alloc, image.as_slice())?;
    unsized_job.extend_from_slice(add8_job(alloc, "")?.as_bytes())?;
    let rows: [(&[&str], &[u8], Status, &[u8]); 5] = [
        (
            &["jobs", "2", "0"],
            RETURNS,
            Status::Done,
            b"end played 2\npart 0 1\npart 1 1\n",
        ),
        (
            &["jobs", "2", "0"],
            BYTE,
            Status::Done,
            b"end trap 0 NoRow 0x600000000000 0\npart 0 0\npart 1 0\n",
        ),
        (
            &["jobs", "2", "0"],
            JUMPS,
            Status::Done,
            b"end budget 2\npart 0 1\npart 1 1\n",
        ),
        (
            &["jobs", "2", "5"],
            unsized_job.as_slice(),
            Status::Refused,
            b"job: BadField arrays\n",
        ),
        (
            &["jobs", "65", "0"],
            RETURNS,
            Status::Usage,
            b"usage: orcc asm | c | check | fmt | run | emulate | dis | gen S | jobs W S | obj | asm41 | check41 | header | lib | lib41\n",
        ),
    ];
    for (words, input, status, said) in rows {
        let ran = run(alloc, words, input)?;
        assert_eq!(rt; ran.status, status, "{said:?}");
        if status == Status::Done {
            assert!(rt; ran.output.as_slice() == said, "{said:?}");
        } else {
            assert!(rt; ran.notes.as_slice() == said, "{said:?}");
        }
    }
    let mut sized_job = image;
    sized_job.extend_from_slice(add8_job(alloc, ",\"size\":1")?.as_bytes())?;
    let played = run(alloc, &["jobs", "2", "5"], sized_job.as_slice())?;
    let output = played.output.as_slice();
    assert!(rt; output.starts_with(b"end played "));
    assert!(rt; has_at_most(output, "part 0 ", 130));
    assert!(rt; has_at_most(output, "part 1 ", 148));
    assert!(rt; output.ends_with(b"\nmem 4096 020000\nmem 8192 01ff80\nmem 12288 010180\n"));
    Ok(())
}

/// Whether a line begins so and goes on with a number that is at most a bound.
fn is_line(line: &str, begin: &str, bound: u64) -> bool {
    match line.strip_prefix(begin) {
        Some(steps) => match steps.parse::<u64>() {
            Ok(steps) => steps <= bound,
            Err(_) => false,
        },
        None => false,
    }
}

#[test]
fn a_number_is_summed_up(rt: HostRuntime) -> Result<(), AllocError> {
    let alloc = rt.alloc();
    // The sums are those of a program in another language that emulates the generator's functions; the bounds are their steps.
    let lines: [(&str, u64); 8] = [
        ("g0 sum 0 steps ", 332_328),
        ("g1 sum 4294967016 steps ", 326_564),
        ("g2 sum 4294967177 steps ", 346_214),
        ("g3 sum 0 steps ", 311_106),
        ("g4 sum 0 steps ", 310_582),
        ("g5 sum 0 steps ", 368_484),
        ("g6 sum 4294966876 steps ", 298_268),
        ("g7 sum 0 steps ", 314_774),
    ];
    let ran = run(alloc, &["gen", "7"], b"")?;
    assert_eq!(rt; ran.status, Status::Done);
    let Ok(text) = str::from_utf8(ran.output.as_slice()) else {
        panic!(rt; "no text");
    };
    assert_eq!(rt; text.lines().count(), lines.len());
    for (line, (begin, bound)) in text.lines().zip(lines) {
        assert!(rt; is_line(line, begin, bound), "{line}");
    }
    let wrong = run(alloc, &["gen", "07"], b"")?;
    assert_eq!(rt; wrong.status, Status::Usage);
    Ok(())
}
