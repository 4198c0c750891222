//! Where a text ends, and what stands before the next lexeme.

ghost use Rattle.std.specs.Prelude.{◌≡◌};
ghost use Rattle.p4_printer.specs.declared.form.Form.TheVariants as f;
ghost use Rattle.p4_printer.specs.Layout.{is_type_word, is_open, resolved, more, behind, is_call, is_tight, on_line, on_new_line, behind_include, behind_brace, gap_behind, gap_of_end, gap_before};

use crate::form::{Form, is_close_call, is_tight_before, is_tight_behind, may_touch};

/// Where a text ends: how many brackets of a kind are open, and what the last lexeme is.
#[derive(Clone, Copy)]
pub struct Place {
    /// Blocks.
    pub depth: u32,
    pub rounds: u32,
    pub squares: u32,
    /// `<` of types.
    pub angles: u32,
    pub last: Form,
}

/// What stands before a lexeme.
#[derive(Clone, Copy)]
pub enum Gap {
    Nothing,
    Blank,
    /// A new line, this many levels in.
    Line(u32),
    /// An empty line.
    Empty,
}

fn is_type_word(form: Form) -> bool
    ensures { result ≡ is_type_word form }
{
    match form {
        Form::TypeWord => true,
        _ => false,
    }
}

fn is_open(form: Form) -> bool
    ensures { result ≡ is_open form }
{
    match form {
        Form::Open => true,
        _ => false,
    }
}

/// The colon of a slice, of an operator, or of a key or a case.
fn colon_at(place: Place) -> Form
    ensures { result ≡ resolved place f.Colon }
{
    if 0 < place.squares {
        Form::SliceColon
    } else if 0 < place.rounds {
        Form::Sign
    } else {
        Form::Colon
    }
}

/// What a lexeme is behind what stands before it.
pub fn resolved(place: Place, form: Form) -> Form
    ensures { result ≡ resolved place form }
{
    match form {
        Form::Less if is_type_word(place.last) => Form::AngleOpen,
        Form::More if 0 < place.angles => Form::AngleClose,
        Form::Minus if is_open(place.last) => Form::Prefix,
        Form::Less | Form::More | Form::Minus => Form::Sign,
        Form::Colon => colon_at(place),
        Form::BraceOpen | Form::BraceClose if 0 < place.rounds => Form::Sign,
        _ => form,
    }
}

fn more(n: u32) -> u32
    ensures { result ≡ more n }
{
    n.saturating_add(1)
}

/// The place behind a lexeme of this form.
pub fn behind(place: Place, form: Form) -> Place
    ensures { result ≡ behind place form }
{
    let mut new = place;
    new.last = form;
    match form {
        Form::BraceOpen => new.depth = more(place.depth),
        Form::BraceClose => new.depth = place.depth.saturating_sub(1),
        Form::Open => new.rounds = more(place.rounds),
        Form::Close => new.rounds = place.rounds.saturating_sub(1),
        Form::SquareOpen => new.squares = more(place.squares),
        Form::SquareClose => new.squares = place.squares.saturating_sub(1),
        Form::AngleOpen => new.angles = more(place.angles),
        Form::AngleClose => new.angles = place.angles.saturating_sub(1),
        _ => {}
    }
    new
}

fn is_call(last: Form, next: Form) -> bool
    ensures { result ≡ is_call last next }
{
    match next {
        Form::Open => is_close_call(last),
        _ => false,
    }
}

fn is_tight(last: Form, next: Form) -> bool
    ensures { result ≡ is_tight last next }
{
    may_touch(last, next) && (is_tight_behind(last) || is_tight_before(next) || is_call(last, next))
}

fn on_line(last: Form, next: Form) -> Gap
    ensures { result ≡ on_line last next }
{
    if is_tight(last, next) {
        Gap::Nothing
    } else {
        Gap::Blank
    }
}

/// A new line; at top level an empty line stands before it.
fn on_new_line(place: Place) -> Gap
    ensures { result ≡ on_new_line place }
{
    if place.depth == 0 {
        Gap::Empty
    } else {
        Gap::Line(place.depth)
    }
}

fn behind_include(next: Form) -> Gap
    ensures { result ≡ behind_include next }
{
    match next {
        Form::Include => Gap::Line(0),
        _ => Gap::Empty,
    }
}

fn behind_brace(place: Place, next: Form) -> Gap
    ensures { result ≡ behind_brace place next }
{
    match next {
        Form::Else => Gap::Blank,
        _ => on_new_line(place),
    }
}

/// What stands between the last lexeme and the next, which closes no block.
fn gap_behind(place: Place, next: Form) -> Gap
    ensures { result ≡ gap_behind place place.last next }
{
    match place.last {
        Form::Start => Gap::Nothing,
        Form::Include => behind_include(next),
        Form::BraceClose => behind_brace(place, next),
        Form::BraceOpen | Form::Semicolon => on_new_line(place),
        _ => on_line(place.last, next),
    }
}

/// What stands before the end of a block.
fn gap_of_end(place: Place) -> Gap
    ensures { result ≡ gap_of_end place place.last }
{
    match place.last {
        Form::BraceOpen => Gap::Blank,
        _ => Gap::Line(place.depth.saturating_sub(1)),
    }
}

/// What stands before a lexeme of this form.
pub fn gap_before(place: Place, next: Form) -> Gap
    ensures { result ≡ gap_before place next }
{
    match next {
        Form::BraceClose => gap_of_end(place),
        _ => gap_behind(place, next),
    }
}
