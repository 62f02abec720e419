//! Functions and programs as they are built.

ghost use Rattle.std.specs.Prelude.{◌≡◌, ◌<◌, ◌++◌, ◌∷◌, [], true, false, Some, None, OnOk, OnErr, map, length};
ghost use Rattle.std.specs.List.{list_any};
ghost use Rattle.std.specs.Str.{bytes_eq};
ghost use Rattle.orc_program.specs.Program.{place_of, count_of};
ghost use Rattle.orc_program.specs.Kept.{is_var, is_count_note, is_shaped, most_of, most_functions};
ghost use Rattle.orc_program.specs.Checks.{insn_fault};

use crate::name::Name;
use crate::program::{Function, Insn, Notes, Program, Var, Words};
use sqlite_items::Items;
use std::alloc::{AllocError, Global};

/// A function without variables and instructions.
#[tactic(auto, unfolding(crate::specs::Kept::is_function))]
pub fn new_function(alloc: Global, name: Name) -> Function
    ensures { result ≡ record { name = name; two_d = false; vars = []; insns = []; notes = record { n = None; m = None; backup = None } } }
{
    Function {
        name,
        two_d: false,
        vars: Items::new(alloc),
        insns: Items::new(alloc),
        notes: Notes {
            n: None,
            m: None,
            backup: None,
        },
    }
}

/// Declares a variable: one that a line without a fault can declare, of a name that is new, where there is room for one more of its kind.
#[tactic(auto, using(crate::proofs::Growing::var_pushed))]
pub fn declare(f: &mut Function, var: Var) -> Result<(), AllocError>
    requires fine { is_var var ≡ true }
    requires unnamed { place_of var.name f.old.vars ≡ None }
    requires room { count_of var.kind f.old.vars < most_of var.kind }
    ensures ok { OnOk result (f.new ≡ record (f.old) { vars = f.old.vars ++ var ∷ [] }) }
    ensures err { OnErr result (f.new ≡ f.old) }
{
    f.vars.push(var)
}

/// Sets that the function has rows.
#[tactic(auto, unfolding(crate::specs::Kept::is_function))]
pub fn set_two_d(f: &mut Function)
    ensures { f.new ≡ record (f.old) { two_d = true } }
{
    f.two_d = true;
}

/// Sets the words after `.n`.
#[tactic(auto, using(crate::proofs::Growing::n_noted))]
pub fn set_n(f: &mut Function, words: Words)
    requires { is_count_note words ≡ true }
    ensures { f.new ≡ record (f.old) { notes = record (f.old.notes) { n = Some words } } }
{
    f.notes.n = Some(words);
}

/// Sets the words after `.m`.
#[tactic(auto, using(crate::proofs::Growing::m_noted))]
pub fn set_m(f: &mut Function, words: Words)
    requires { is_count_note words ≡ true }
    ensures { f.new ≡ record (f.old) { notes = record (f.old.notes) { m = Some words } } }
{
    f.notes.m = Some(words);
}

/// Sets the name after `.backup`.
#[tactic(auto, using(crate::proofs::Growing::backup_noted))]
pub fn set_backup(f: &mut Function, name: Name)
    ensures { f.new ≡ record (f.old) { notes = record (f.old.notes) { backup = Some name } } }
{
    f.notes.backup = Some(name);
}

/// Adds an instruction that has no fault after those before it.
#[tactic(auto, using(crate::proofs::Growing::insn_pushed))]
pub fn add_insn(f: &mut Function, insn: Insn) -> Result<(), AllocError>
    requires shaped { is_shaped f.old.vars insn ≡ true }
    requires passes { insn_fault f.old.vars f.old.insns insn ≡ None }
    ensures ok { OnOk result (f.new ≡ record (f.old) { insns = f.old.insns ++ insn ∷ [] }) }
    ensures err { OnErr result (f.new ≡ f.old) }
{
    f.insns.push(insn)
}

/// A program without functions.
#[tactic(auto, unfolding(crate::specs::Kept::is_program))]
pub fn new_program(alloc: Global) -> Program
    ensures { result ≡ record { init = None; functions = [] } }
{
    Program {
        init: None,
        functions: Items::new(alloc),
    }
}

/// Sets the name after `.init`.
#[tactic(auto, using(crate::proofs::Growing::init_set))]
pub fn set_init(program: &mut Program, name: Name)
    ensures { program.new ≡ record (program.old) { init = Some name } }
{
    program.init = Some(name);
}

/// Adds a function of a name that is new, where there is room for one more.
#[tactic(auto, using(crate::proofs::Growing::function_pushed))]
pub fn add_function(program: &mut Program, f: Function) -> Result<(), AllocError>
    requires unnamed { list_any (bytes_eq f.name) (map (λ g. g.name) program.old.functions) ≡ false }
    requires room { length program.old.functions < most_functions }
    ensures ok { OnOk result (program.new ≡ record (program.old) { functions = program.old.functions ++ f ∷ [] }) }
    ensures err { OnErr result (program.new ≡ program.old) }
{
    program.functions.push(f)
}
