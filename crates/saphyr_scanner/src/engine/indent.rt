//! Indentation: where block collections begin and end, which no characters mark (YAML 1.2.2, 6.1 and 8.2).

ghost use Rattle.std.specs.Prelude.{◌≡◌, Ok, ◌+◌, ◌<◌, ◌^◌, nat_lt, not};
ghost use Rattle.saphyr_scanner.specs.Steps.Core as spec;
ghost use Rattle.saphyr_scanner.specs.Steps.Unrolling as unrolling;
ghost use Rattle.saphyr_scanner.specs.Steps.State as spec_state;

use crate::engine::Engine;
use crate::stopped::{Stopped, keep};
use saphyr_input::input::Input;
use saphyr_scalar::Marker;

impl<T: Input> Engine<T> {
    ghost use Rattle.saphyr_scanner.specs.Views.Engine.{state, MovesBy, CarriesBy};

    // The column left of which nothing belongs to what is open.
    pub(super) fn least_column(&self) -> usize
        ensures { result ≡ spec.least_column (state self.now).core }
    {
        if self.deeper {
            self.indent
        } else {
            self.indent.saturating_sub(1)
        }
    }

    // Whether a column is not left of the least one. For speed the usual case is tested first, and no column is
    // computed.
    #[inline(always)]
    pub(super) fn is_far_enough(&self, column: usize) -> bool
        ensures { result ≡ not (nat_lt column (spec.least_column (state self.now).core)) }
    {
        column >= self.indent || !self.deeper && column + 1 == self.indent
    }

    // Content must be at least one column further right than the block collection.
    pub(super) fn go_deeper(&mut self)
        ensures { state self.new ≡ spec_state.with_core (spec.go_deeper (state self.old).core)
            (state self.old) }
    {
        if self.in_block() && self.indent > 0 {
            self.deeper = true;
        }
    }

    // Whether a block collection begins at a column.
    pub(super) fn is_further(&self, column: usize) -> bool
        ensures { result ≡ spec.is_further column (state self.now).core }
    {
        self.in_block() && self.indent <= column
    }

    // A block collection begins at a column, if one does.
    #[inline(always)]
    pub(super) fn roll(&mut self, column: usize) -> Result<(), Stopped>
        requires { column + 1 < 2 ^ 64 }
        ensures { CarriesBy (λ c. Ok (spec.roll column c)) self.old result self.new }
    {
        if !self.is_further(column) {
            return Ok(());
        }
        keep(&mut self.stop, self.outer_indents.reserve(1))?;
        self.outer_indents.push_reserved(self.indent);
        self.indent = column + 1;
        self.deeper = false;
        Ok(())
    }

    // The innermost block collection is left. Its end is put into the queue with those of others.
    #[inline(always)]
    #[tactic(auto, using(crate::proofs::Stacks::top_off))]
    fn leave_block(&mut self)
        ensures { state self.new ≡ spec_state.with_core
            (unrolling.with_outer_indent (state self.old).core.outer_indents (state self.old).core)
            (state self.old) }
    {
        self.indent = match self.outer_indents.pop() {
            Some(indent) => indent,
            None => 0,
        };
    }

    // Whether the innermost block collection is to the right of a column. For `None` each one is.
    fn is_right_of(&self, column: Option<usize>) -> bool
        ensures { result ≡ unrolling.is_right_of column (state self.now).core.indent }
    {
        match column {
            None => self.indent > 0,
            Some(column) => self.indent.saturating_sub(1) > column,
        }
    }

    // The next entry of the block collection is at its column, and what follows the collection is left of that. Neither
    // must be right of it.
    fn go_less_deep(&mut self, column: Option<usize>)
        ensures { state self.new ≡ spec_state.with_core
            (unrolling.go_less_deep column (state self.old).core) (state self.old) }
    {
        self.deeper = match column {
            None => false,
            Some(column) => self.deeper && self.indent <= column,
        };
    }

    // The block collections to the right of a column end at a place, and all of them for `None`.
    #[inline(always)]
    #[tactic(auto, unfolding(crate::specs::Steps::Unrolling::unroll))]
    pub(super) fn unroll(&mut self, column: Option<usize>, mark: Marker) -> Result<(), Stopped>
        ensures { MovesBy (λ s. Ok (unrolling.unroll column mark s)) self.old result self.new }
    {
        if !self.in_block() {
            return Ok(());
        }
        self.go_less_deep(column);
        let mut count = 0;
        while self.is_right_of(column) {
            self.leave_block();
            count += 1;
        }
        keep(&mut self.stop, self.queue.put_block_ends(mark, count))?;
        Ok(())
    }
}
