//! The reader of C texts.

ghost use Rattle.std.specs.Prelude.{◌≡◌, ◌≤◌, ◌+◌, nat_eq, length, IfOk, IfErr};
ghost use Rattle.std.specs.List.{common_prefix_len};
ghost use Rattle.c_run.specs.declared.tree.CTree.{CTree};
ghost use Rattle.c_emit.specs.Text.{c_text};
ghost use Rattle.c_emit.specs.Spelled.{CText};
ghost use Rattle.c_read.specs.Wrong.{IsWrong, GivesTree};
ghost use Rattle.c_read.specs.Told.{Compares};

use crate::error::CError;
use crate::function::functions;
use crate::scan::skip;
use c_emit::print;
use c_run::CTree;
use std::alloc::Global;

/// The length of the longest common prefix.
fn shared(a: &[u8], b: &[u8]) -> usize
    ensures { result ≡ common_prefix_len nat_eq a.now b.now }
{
    let mut n = 0;
    'bytes: while n < a.len() && n < b.len() {
        if a[n] != b[n] {
            return n;
        }
        n += 1;
    }
    n
}

/// The tree that the bytes suggest, where its text is the bytes. Else the length of what both have in common.
fn read_by_guess(alloc: Global, bytes: &[u8]) -> Result<CTree, CError>
    ensures { Compares bytes.now result }
{
    let most = bytes.len();
    let functions = functions(alloc, most, most, skip(bytes, 20))?;
    let tree = CTree { functions };
    let text = print(alloc, &tree)?;
    if bytes == text.as_slice() {
        return Ok(tree);
    }
    let at = shared(bytes, text.as_slice());
    Err(CError::Syntax { at })
}

/// The tree whose text the bytes are.
///
/// # Errors
///
/// [`CError::Syntax`] exactly where the bytes are no text of the grammar: `at` is the length of the longest prefix of the
/// bytes that some text of the grammar begins with. [`CError::Memory`] where memory is wanting.
pub fn read_c(alloc: Global, bytes: &[u8]) -> Result<CTree, CError>
    // What is read is the tree of this text.
    ensures found { IfOk result (λ t. CText bytes.now t) }
    // Each tree is read from its text, unless memory is wanting.
    ensures only { (t : CTree) → CText bytes.now t → GivesTree result t }
    // Which byte is wrong.
    ensures wrong { IfErr result (λ e. IsWrong bytes.now e) }
{
    read_by_guess(alloc, bytes)
}
