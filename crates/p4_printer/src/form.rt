//! What lexemes are to the layout of a text.

ghost use Rattle.std.specs.Prelude.{◌≡◌};
ghost use Rattle.p4_printer.specs.Forms.{form_of_key, is_word, takes_words, takes_signs, is_tight_before, is_tight_behind, may_touch, is_close_call};

use lex_words::Key;

/// What a lexeme is to the layout.
#[derive(Clone, Copy)]
pub enum Form {
    /// Nothing: the start of a text.
    Start,
    /// A name, a number, or a reserved word that is none of these below.
    Word,
    If,
    Else,
    /// `bit` and `register`, behind which `<` opens what a type is made from.
    TypeWord,
    Include,
    /// A brace of a block.
    BraceOpen,
    BraceClose,
    Semicolon,
    Open,
    Close,
    SquareOpen,
    SquareClose,
    Comma,
    Dot,
    /// The colon of a key or a case.
    Colon,
    /// The colon of a slice.
    SliceColon,
    /// `<` and `>` of a type.
    AngleOpen,
    AngleClose,
    /// An operator before its operand.
    Prefix,
    /// `<`, `>`, `-`: what they are is told by what stands before them.
    Less,
    More,
    Minus,
    /// An operator between its operands, `=`, and a brace of a list.
    Sign,
}

/// What a key is, whatever stands before it.
pub fn form_of_key(key: Key) -> Form
    ensures { result ≡ form_of_key key }
{
    match key {
        Key::If => Form::If,
        Key::Else => Form::Else,
        Key::Bit | Key::Register => Form::TypeWord,
        Key::BraceOpen => Form::BraceOpen,
        Key::BraceClose => Form::BraceClose,
        Key::Semicolon => Form::Semicolon,
        Key::Open => Form::Open,
        Key::Close => Form::Close,
        Key::SquareOpen => Form::SquareOpen,
        Key::SquareClose => Form::SquareClose,
        Key::Comma => Form::Comma,
        Key::Dot => Form::Dot,
        Key::Colon => Form::Colon,
        Key::Tilde | Key::Not => Form::Prefix,
        Key::Less => Form::Less,
        Key::More => Form::More,
        Key::Minus => Form::Minus,
        Key::AddCapped | Key::SubCapped | Key::Mask | Key::Both | Key::Either | Key::Equal => {
            Form::Sign
        }
        Key::Differ | Key::LessEq | Key::MoreEq | Key::ShiftLeft | Key::ShiftRight => Form::Sign,
        Key::Concat | Key::DotDot | Key::Assign | Key::Plus | Key::Times | Key::Slash => Form::Sign,
        Key::Percent | Key::And | Key::Or | Key::Caret | Key::Question => Form::Sign,
        Key::At | Key::Hash => Form::Sign,
        _ => Form::Word,
    }
}

/// Whether it begins with a byte of names.
pub fn is_word(form: Form) -> bool
    ensures { result ≡ is_word form }
{
    match form {
        Form::Word | Form::If | Form::Else | Form::TypeWord => true,
        _ => false,
    }
}

/// Whether a byte of a name right behind it might be read with it.
fn takes_words(form: Form) -> bool
    ensures { result ≡ takes_words form }
{
    match form {
        Form::Word | Form::If | Form::Else | Form::TypeWord | Form::Sign => true,
        _ => false,
    }
}

/// Whether it may be a part of a longer mark.
fn takes_signs(form: Form) -> bool
    ensures { result ≡ takes_signs form }
{
    match form {
        Form::Dot | Form::AngleOpen | Form::AngleClose | Form::Prefix => true,
        Form::Less | Form::More | Form::Minus | Form::Sign => true,
        _ => false,
    }
}

/// Whether `next` is read as what it is right behind `last`.
pub fn may_touch(last: Form, next: Form) -> bool
    ensures { result ≡ may_touch last next }
{
    !(takes_words(last) && is_word(next)) && !(takes_signs(last) && takes_signs(next))
}

/// Whether no blank stands before it.
pub fn is_tight_before(form: Form) -> bool
    ensures { result ≡ is_tight_before form }
{
    match form {
        Form::Semicolon | Form::Comma | Form::Close | Form::SquareOpen => true,
        Form::SquareClose | Form::Dot | Form::Colon | Form::SliceColon => true,
        Form::AngleOpen | Form::AngleClose => true,
        _ => false,
    }
}

/// Whether no blank stands behind it.
pub fn is_tight_behind(form: Form) -> bool
    ensures { result ≡ is_tight_behind form }
{
    match form {
        Form::Open | Form::SquareOpen | Form::Dot | Form::SliceColon => true,
        Form::AngleOpen | Form::Prefix => true,
        _ => false,
    }
}

/// Whether `(` stands right behind it, as behind what is called.
pub fn is_close_call(form: Form) -> bool
    ensures { result ≡ is_close_call form }
{
    match form {
        Form::Word | Form::AngleClose => true,
        _ => false,
    }
}
