//! The words after the program's name.
ghost use Rattle.std.specs.Prelude.{◌≡◌, ◌≢◌, ◌≤◌, ◌<◌, ◌^◌, ◌↔◌, ℕ, IsTrue, IfSome, IfNone, codes};
ghost use Rattle.orcc_top.specs.declared.command.Command as declared;
ghost use Rattle.std.specs.Prelude.{◌∷◌, []};
ghost use Rattle.orc_ops.specs.declared.target.Target as targets;
ghost use Rattle.orcc_top.specs.Commands.{AreSaid, spelled, asm_word, check_word, lib_word, words_of, gen_words};

use crate::number::number_of;
use crate::workers::Workers;
use orc_ops::Target;

/// What the words ask for.
#[derive(Clone, Copy, Debug, PartialEq, Eq)]
pub enum Command {
    /// `asm` and `asm41`: reads a text and writes an image, with code for the target.
    Asm(Target),
    /// `c`: reads a text and writes C of the same meaning.
    C,
    /// `check` and `check41`: reads a text and writes the figures of its functions for the target.
    Check(Target),
    /// `fmt`: reads a text and writes its canonical text.
    Fmt,
    /// `run`: reads an image and a job, and writes the result of running the code on the job.
    Run,
    /// `dis`: reads an image or an object and writes its listing.
    Dis,
    /// `emulate`: reads a text and a job, and writes the result of the job's emulation.
    Emulate,
    /// `obj`: reads a text and writes an object.
    Obj,
    /// `header`: reads a text and writes the prototypes of its functions in C.
    Header,
    /// `lib` and `lib41`: reads a text and writes an object whose functions C calls by these prototypes, with code for the target.
    Lib(Target),
    /// `jobs W S`: reads an image and a job, and writes the result of sharing the job among workers.
    Jobs(Workers),
}

fn is_asm(word: &str) -> bool
    ensures { IsTrue result ↔ (word.now ≡ codes "asm") }
{
    word == "asm"
}

fn is_asm41(word: &str) -> bool
    ensures { IsTrue result ↔ (word.now ≡ codes "asm41") }
{
    word == "asm41"
}

fn is_c(word: &str) -> bool
    ensures { IsTrue result ↔ (word.now ≡ codes "c") }
{
    word == "c"
}

fn is_check(word: &str) -> bool
    ensures { IsTrue result ↔ (word.now ≡ codes "check") }
{
    word == "check"
}

fn is_check41(word: &str) -> bool
    ensures { IsTrue result ↔ (word.now ≡ codes "check41") }
{
    word == "check41"
}

fn is_fmt(word: &str) -> bool
    ensures { IsTrue result ↔ (word.now ≡ codes "fmt") }
{
    word == "fmt"
}

fn is_run(word: &str) -> bool
    ensures { IsTrue result ↔ (word.now ≡ codes "run") }
{
    word == "run"
}

fn is_dis(word: &str) -> bool
    ensures { IsTrue result ↔ (word.now ≡ codes "dis") }
{
    word == "dis"
}

fn is_emulate(word: &str) -> bool
    ensures { IsTrue result ↔ (word.now ≡ codes "emulate") }
{
    word == "emulate"
}

fn is_obj(word: &str) -> bool
    ensures { IsTrue result ↔ (word.now ≡ codes "obj") }
{
    word == "obj"
}

fn is_header(word: &str) -> bool
    ensures { IsTrue result ↔ (word.now ≡ codes "header") }
{
    word == "header"
}

fn is_lib(word: &str) -> bool
    ensures { IsTrue result ↔ (word.now ≡ codes "lib") }
{
    word == "lib"
}

fn is_lib41(word: &str) -> bool
    ensures { IsTrue result ↔ (word.now ≡ codes "lib41") }
{
    word == "lib41"
}

fn is_jobs(word: &str) -> bool
    ensures { IsTrue result ↔ (word.now ≡ codes "jobs") }
{
    word == "jobs"
}

/// The target whose code a word asks for, if it asks for code.
#[tactic(auto, using(crate::proofs::Asked::no_asm))]
fn asm_target(word: &str) -> Option<Target>
    ensures said { IfSome result (λ target. word.now ≡ asm_word target) }
    ensures none { IfNone result ((target : targets.Target) → word.now ≡ asm_word target → ⊥) }
{
    if is_asm(word) {
        Some(Target::Sse2)
    } else if is_asm41(word) {
        Some(Target::Sse41)
    } else {
        None
    }
}

/// The target whose figures a word asks for, if it asks for figures.
#[tactic(auto, using(crate::proofs::Asked::no_check))]
fn check_target(word: &str) -> Option<Target>
    ensures said { IfSome result (λ target. word.now ≡ check_word target) }
    ensures none { IfNone result ((target : targets.Target) → word.now ≡ check_word target → ⊥) }
{
    if is_check(word) {
        Some(Target::Sse2)
    } else if is_check41(word) {
        Some(Target::Sse41)
    } else {
        None
    }
}

/// The target whose code for C a word asks for, if it asks for such code.
#[tactic(auto, using(crate::proofs::Asked::no_lib))]
fn lib_target(word: &str) -> Option<Target>
    ensures said { IfSome result (λ target. word.now ≡ lib_word target) }
    ensures none { IfNone result ((target : targets.Target) → word.now ≡ lib_word target → ⊥) }
{
    if is_lib(word) {
        Some(Target::Sse2)
    } else if is_lib41(word) {
        Some(Target::Sse41)
    } else {
        None
    }
}

/// The workers that the words say, if they say some.
#[tactic(auto, using(crate::proofs::Numbered::some_workers, crate::proofs::Numbered::few_workers))]
fn workers_of(count: &str, seed: &str) -> Option<Workers>
    ensures said { IfSome result (λ w. AreSaid w count.now seed.now) }
    ensures none { IfNone result ((w : Workers) → AreSaid w count.now seed.now → ⊥) }
{
    let number = number_of(count)?;
    let seed = number_of(seed)?;
    if number < 1 {
        return None;
    }
    if 64 < number {
        return None;
    }
    let count = number as u8;
    Some(Workers { count, seed })
}

fn is_gen(word: &str) -> bool
    ensures { IsTrue result ↔ (word.now ≡ codes "gen") }
{
    word == "gen"
}

/// The number whose summary the words ask for, if they ask for one.
pub fn seed_of(words: &[String]) -> Option<u64>
    ensures asked { IfSome result (λ seed. spelled words.now ≡ gen_words seed) }
    ensures wrong { IfNone result ((seed : ℕ) → seed < 2 ^ 64 → spelled words.now ≢ gen_words seed) }
{
    match words {
        [name, number] if is_gen(name.as_str()) => number_of(number.as_str()),
        _ => None,
    }
}

/// The command that one word asks for, if it asks for one.
fn command_of_word(word: &str) -> Option<Command>
    ensures asked { IfSome result (λ command. word.now ∷ [] ≡ words_of command) }
    ensures wrong { IfNone result ((command : declared.Command) → word.now ∷ [] ≢ words_of command) }
{
    if let Some(target) = asm_target(word) {
        return Some(Command::Asm(target));
    }
    if let Some(target) = check_target(word) {
        return Some(Command::Check(target));
    }
    if let Some(target) = lib_target(word) {
        return Some(Command::Lib(target));
    }
    match word {
        word if is_c(word) => Some(Command::C),
        word if is_fmt(word) => Some(Command::Fmt),
        word if is_run(word) => Some(Command::Run),
        word if is_dis(word) => Some(Command::Dis),
        word if is_emulate(word) => Some(Command::Emulate),
        word if is_obj(word) => Some(Command::Obj),
        word if is_header(word) => Some(Command::Header),
        _ => None,
    }
}

/// The command that reads an input and that the words ask for, if they ask for one.
pub fn command_of(words: &[String]) -> Option<Command>
    ensures asked { IfSome result (λ command. spelled words.now ≡ words_of command) }
    ensures wrong { IfNone result ((command : declared.Command) → spelled words.now ≢ words_of command) }
{
    match words {
        [word] => command_of_word(word.as_str()),
        [word, count, seed] if is_jobs(word.as_str()) => {
            Some(Command::Jobs(workers_of(count.as_str(), seed.as_str())?))
        }
        _ => None,
    }
}

impl Command {
    ghost use Rattle.orcc_top.specs.Answer.{limit_of};

    /// The most bytes that the command's input has.
    pub fn limit(self) -> usize
        ensures limit { result ≡ limit_of self }
        ensures readable { result ≤ 67108864 }
    {
        match self {
            Command::Asm(_)
            | Command::C
            | Command::Check(_)
            | Command::Fmt
            | Command::Obj
            | Command::Header
            | Command::Lib(_) => 1_048_576,
            Command::Run | Command::Dis | Command::Emulate | Command::Jobs(_) => 67_108_864,
        }
    }
}
