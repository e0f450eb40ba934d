//! Laws of the reader of directives in the standard's words: what is spelled so is read (YAML 1.2.2, 6.8).

ghost use Rattle.std.specs.Prelude.{◌≡◌, ℕ, ◌+◌, true, List, ◌++◌, length, Ok, encode_utf8_all, slice_index};
ghost use Rattle.saphyr_input.specs.Classes.{is_breakz};
ghost use Rattle.saphyr_scalar.specs.Views.Cursor.{Cursor, along, pass_break};
ghost use Rattle.saphyr_scalar.specs.Steps.Directive.{directive};
ghost use Rattle.saphyr_scalar.specs.Spelling.Directive.{ReadDirective, reserved, IsDirectiveText, IsReservedDirective, IsLineTail};
ghost use Rattle.saphyr_scalar.specs.Steps.Quoted.{mid_line};

/// If a version directive or a tag directive is spelled, and blanks, a comment and a break, NUL or the end
/// follow it, it is read, without a fault, to the end of its line.
pub fn reads_each_directive()
    ensures { (s : Cursor) (d : ReadDirective) (t tail x : List ℕ) → s.rest ≡ t ++ (tail ++ x)
        → IsDirectiveText d t → IsLineTail tail → is_breakz (slice_index x 0) ≡ true
        → directive s ≡ Ok (
          d,
          along s.mark (length t),
          pass_break
              (mid_line (along s.mark (length t + length tail)) x),
        ) }
{}

/// If a reserved directive is spelled, and a break, NUL or the end follows its parameters, its name is
/// read, without a fault, and its parameters are passed.
pub fn reads_each_reserved_directive()
    ensures { (s : Cursor) (name t x : List ℕ) → s.rest ≡ t ++ x → IsReservedDirective name t
        → is_breakz (slice_index x 0) ≡ true
        → directive s ≡ Ok (
          reserved (encode_utf8_all name),
          along s.mark (length t),
          pass_break
              (mid_line (along s.mark (length t)) x),
        ) }
{}
