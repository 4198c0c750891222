//! What holds of programs without exits, each law the contract of a function that does nothing.

ghost use Rattle.exit_programs.specs.Laws.{BoundStays, HeightBounded, NamesStand, NoneIsLeft, PartsAgree, SizeBounded, StaysAsItIs};

/// No `exit` and no `return` is left.
pub fn none_is_left()
    ensures { NoneIsLeft }
{}

/// A program without either stays as it is.
pub fn stays_as_it_is()
    ensures { StaysAsItIs }
{}

/// What of a program without exits runs are the given parts, with actions, ingress and egress without
/// exits.
pub fn parts_agree()
    ensures { PartsAgree }
{}

/// The bound on the digests of a passage is the same.
pub fn bound_stays()
    ensures { BoundStays }
{}

/// The names that are declared stand there, and each new one begins with `hydra_`.
pub fn names_stand()
    ensures { NamesStand }
{}

/// Declarations of controls and statements are at most five times as many.
pub fn size_bounded()
    ensures { SizeBounded }
{}

/// The program is at most three times as high.
pub fn height_bounded()
    ensures { HeightBounded }
{}
