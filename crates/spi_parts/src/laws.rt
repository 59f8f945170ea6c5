//! Laws of files, and of the parts that are read by themselves.

ghost use Rattle.std.specs.Prelude.{Bool, List, Result};
ghost use Rattle.spi_lex.specs.declared.token.Token.{Token};
ghost use Rattle.spi_tree.specs.Trees.{File};
ghost use Rattle.spi_parse.specs.declared.fault.ParseFault.{ParseFault};
ghost use Rattle.spi_parse.specs.Bare.{bare_ty, bare_msg, bare_decl, bare_proc};
ghost use Rattle.spi_parse.specs.Exact.{Parses};
ghost use Rattle.spi_parse.specs.Formed.{IsFile, whole_file, whole_type, whole_message, whole_decl, whole_process, IsWholeType, IsWholeMessage, IsWholeDecl, IsWholeProcess};
ghost use Rattle.spi_parts.specs.Determined.{AreOne, HasOneAnswer, IsCutOnce, IsCutOnceAtEnds, BeginsNoOther, AgreesOnDepth};

/// Tokens have one answer of `parse`, but for want of memory: one tree with its spans, or one fault at one token.
pub fn one_answer()
    ensures { (a b : Result File ParseFault) (ts : List Token) → Parses (λ f. f) a ts → Parses (λ f. f) b ts
        → AreOne a b }
{}

/// Tokens have one answer of `type_at`, `message_at`, `decl_at` and `process_at`, but for want of memory: one part with its
/// spans and its end, or one fault.
pub fn one_part_answer()
    ensures { (later : Bool) → HasOneAnswer whole_type (IsWholeType later)
        × HasOneAnswer whole_message (IsWholeMessage later)
        × HasOneAnswer whole_decl (IsWholeDecl later)
        × HasOneAnswer whole_process (IsWholeProcess later) }
{}

/// A text is cut in one way into a type, a message or a declaration and what is behind it, and into a process and what is
/// behind it, where the process goes on no further.
pub fn one_part_in_front()
    ensures { (later : Bool) → IsCutOnce bare_ty whole_type (IsWholeType later)
        × IsCutOnce bare_msg whole_message (IsWholeMessage later)
        × IsCutOnce bare_decl whole_decl (IsWholeDecl later)
        × IsCutOnceAtEnds bare_proc whole_process (IsWholeProcess later) }
{}

/// No type's tokens are a proper prefix of another's, no message's and no declaration's.
pub fn no_part_begins_another()
    ensures { (later : Bool) → BeginsNoOther whole_type (IsWholeType later)
        × BeginsNoOther whole_message (IsWholeMessage later)
        × BeginsNoOther whole_decl (IsWholeDecl later) }
{}

/// Where a file is within the nesting limits, no file that begins so has a node above one there. So the first such node of
/// some file makes the answer `TooDeep` at its token, whatever file the tokens would be.
pub fn files_agree_on_depth()
    ensures { AgreesOnDepth whole_file IsFile }
{}

/// Where a type is within the nesting limits, no type that begins so has a node above one there; and so with messages,
/// declarations and processes.
pub fn parts_agree_on_depth()
    ensures { (later : Bool) → AgreesOnDepth whole_type (IsWholeType later)
        × AgreesOnDepth whole_message (IsWholeMessage later)
        × AgreesOnDepth whole_decl (IsWholeDecl later)
        × AgreesOnDepth whole_process (IsWholeProcess later) }
{}
