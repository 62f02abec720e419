//! The directives.

ghost use Rattle.std.specs.Prelude.{◌≡◌, map};
ghost use Rattle.orc_text.specs.Said.{directive_among, directive_of};

use orc_program::VarKind;
use orc_program::words::is_same;

/// What a word with a dot says that its line is. A parameter of a float or double is refused.
#[derive(Clone, Copy, Debug, PartialEq, Eq)]
pub enum Directive {
    /// `.function`: a function starts.
    Function,
    /// `.init`: a note of the whole text.
    Init,
    /// `.flags`: the function has rows.
    Flags,
    /// `.n`: notes on the number of elements.
    CountN,
    /// `.m`: notes on the number of rows.
    CountM,
    /// `.backup`: a note of the function.
    Backup,
    /// The declaration of a variable of this kind.
    Variable(VarKind),
    /// `.floatparam` and `.doubleparam`, which are not supported.
    Float,
}

/// Each directive's word.
static DIRECTIVES: [(&str, Directive); 15] = [
    (".function", Directive::Function),
    (".source", Directive::Variable(VarKind::Source)),
    (".dest", Directive::Variable(VarKind::Dest)),
    (".accumulator", Directive::Variable(VarKind::Accumulator)),
    (".param", Directive::Variable(VarKind::Param)),
    (".longparam", Directive::Variable(VarKind::Param)),
    (".temp", Directive::Variable(VarKind::Temp)),
    (".const", Directive::Variable(VarKind::Const)),
    (".flags", Directive::Flags),
    (".n", Directive::CountN),
    (".m", Directive::CountM),
    (".init", Directive::Init),
    (".backup", Directive::Backup),
    (".floatparam", Directive::Float),
    (".doubleparam", Directive::Float),
];

/// The directive of the first row with the word.
fn directive_among(rows: &[(&str, Directive)], word: &[u8]) -> Option<Directive>
    ensures { result ≡ directive_among (map (λ row. (row.0.now, row.1)) rows.now) word.now }
{
    let [(name, directive), rest @ ..] = rows else {
        return None;
    };
    if is_same(name.as_bytes(), word) {
        return Some(*directive);
    }
    directive_among(rest, word)
}

/// The directive that a word names; none where it is in no table.
pub(crate) fn directive_of(word: &[u8]) -> Option<Directive>
    ensures { result ≡ directive_of word.now }
{
    directive_among(&DIRECTIVES, word)
}
