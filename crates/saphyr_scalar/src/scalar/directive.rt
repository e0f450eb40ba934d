//! Directives, taken off a text to the ends of their lines (YAML 1.2.2, 6.8).

ghost use Rattle.std.specs.Prelude.{◌≡◌, ◌==◌, ◌||◌, ℕ, ◌<◌, List, [], length, slice_index, string_bytes, Ok};
ghost use Rattle.saphyr_input.specs.Classes as class;
ghost use Rattle.saphyr_input.specs.Indicators.{exclamation_mark, percent_sign};
ghost use Rattle.saphyr_scalar.specs.Steps.Directive as spec;

use crate::scalar::fault::{FaultText, Refusal, Stop};
use crate::scalar::position::Marker;
use crate::scalar::reader::Reader;
use crate::scalar::tag::UriSet;
use saphyr_input::char_set::NonSpace;
use saphyr_input::char_traits::{is_blank_or_breakz, is_breakz, is_digit, is_tag_char};
use saphyr_input::input::{Input, SkipTabs};
use std::alloc::Global;

/// What a directive says (YAML 1.2.2, 6.8).
#[derive(Drop)]
pub enum Directive {
    /// The major and the minor number of `%YAML`.
    Version(u32, u32),
    /// The handle of `%TAG` as it is written, and its prefix with percent escapes resolved.
    TagPrefix(String, String),
    /// The name of any other directive.
    Reserved(String),
}

/// A directive, and the place after it on its line.
#[derive(Drop)]
pub struct DirectiveLine {
    pub directive: Directive,
    pub end: Marker,
}

// Whether the prefix of a tag directive may begin with the character.
#[inline(always)]
fn begins_prefix(c: char) -> bool
    ensures { result ≡ ((c == exclamation_mark) || class.is_tag_char c) }
{
    c == '!' || is_tag_char(c)
}

impl<T: Input> Reader<T> {
    ghost use Rattle.saphyr_scalar.specs.Views.Reader.{cursor_of, GivesAs, GivesBy, PassesBy, ReadsBy, ReadsTextBy};

    // Takes off the name of a directive.
    #[tactic(auto, unfolding(crate::specs::Steps::Directive::name, crate::specs::Steps::Directive::directive_name_of))]
    fn read_directive_name(&mut self, alloc: Global) -> Result<String, Stop>
        ensures { ReadsTextBy spec.name self.old result self.new }
    {
        let start = self.mark;
        let mut name = self.spare.begin(alloc)?;
        self.read_run::<NonSpace>(&mut name)?;
        if name.is_empty() {
            return Err(Stop::Refused(Refusal {
                text: FaultText::DirectiveNameExpected,
                mark: start,
                may_change: self.is_missing(0),
            }));
        }
        if !is_blank_or_breakz(self.look()) {
            return Err(Stop::Refused(Refusal {
                text: FaultText::DirectiveNameCharacter,
                mark: start,
                may_change: false,
            }));
        }
        Ok(name)
    }

    // Takes off a number of one to nine digits.
    #[tactic(auto, unfolding(crate::specs::Steps::Directive::number_from, crate::specs::Steps::Directive::number_end))]
    fn read_version_number(&mut self, start: Marker) -> Result<u32, Refusal>
        ensures { GivesBy (spec.number start) self.old result self.new }
    {
        let mut count = 0usize;
        let mut value = 0u32;
        let mut c = self.look();
        while is_digit(c) {
            if count == 9 {
                return Err(Refusal {
                    text: FaultText::VersionNumberTooLong,
                    mark: start,
                    may_change: false,
                });
            }
            count += 1;
            value = value * 10 + (c as u32 - '0' as u32);
            self.skip_non_blank();
            c = self.look();
        }
        if count == 0 {
            return Err(Refusal {
                text: FaultText::VersionNumberExpected,
                mark: start,
                may_change: c == '\0',
            });
        }
        self.blank_so_far = false;
        Ok(value)
    }

    // Takes off the numbers of a version directive (YAML 1.2.2, 6.8.1).
    #[tactic(auto, unfolding(crate::specs::Steps::Directive::version_directive, crate::specs::Steps::Directive::behind_major))]
    fn read_version_directive(&mut self, start: Marker) -> Result<Directive, Refusal>
        ensures { GivesAs spec.seen_directive (spec.version_directive start) self.old result
            self.new }
    {
        self.skip_blanks();
        let major = self.read_version_number(start)?;
        if self.look() != '.' {
            return Err(Refusal {
                text: FaultText::VersionDigitOrDotExpected,
                mark: start,
                may_change: self.is_missing(0),
            });
        }
        self.skip_non_blank();
        let minor = self.read_version_number(start)?;
        Ok(Directive::Version(major, minor))
    }

    // Takes off the handle of a tag directive: `!`, `!!` or `!word!`.
    #[tactic(auto, unfolding(crate::specs::Steps::Directive::handle))]
    fn read_directive_handle(&mut self, alloc: Global, start: Marker) -> Result<String, Stop>
        ensures { ReadsTextBy (spec.handle start) self.old result self.new }
    {
        if self.look() != '!' {
            return Err(Stop::Refused(Refusal {
                text: FaultText::TagHandleStartExpected,
                mark: start,
                may_change: self.is_missing(0),
            }));
        }
        let mut handle = self.spare.begin(alloc)?;
        let c = self.read_marked_word(&mut handle)?;
        if c == '!' {
            self.skip_non_blank();
            handle.push('!')?;
            return Ok(handle);
        }
        if handle.len() > 1 {
            return Err(Stop::Refused(Refusal {
                text: FaultText::TagDirectiveHandleEndExpected,
                mark: start,
                may_change: c == '\0',
            }));
        }
        Ok(handle)
    }

    // Takes off the prefix of a tag directive, with its escapes resolved.
    #[tactic(auto, unfolding(crate::specs::Steps::Directive::prefix))]
    fn read_tag_prefix(&mut self, alloc: Global, start: Marker) -> Result<String, Stop>
        ensures { ReadsTextBy (spec.prefix start) self.old result self.new }
    {
        if !begins_prefix(self.look()) {
            return Err(Stop::Refused(Refusal {
                text: FaultText::TagPrefixCharacter,
                mark: start,
                may_change: self.is_missing(0),
            }));
        }
        let c = self.read_uri_character(start)?;
        let mut prefix = self.spare.begin(alloc)?;
        prefix.push(c)?;
        self.read_uri_characters(UriSet::Uri, start, &mut prefix)?;
        Ok(prefix)
    }

    // Takes off the handle and the prefix of a tag directive (YAML 1.2.2, 6.8.2).
    #[tactic(auto, unfolding(crate::specs::Steps::Directive::tag_directive, crate::specs::Steps::Directive::behind_prefix))]
    fn read_tag_directive(&mut self, alloc: Global, start: Marker) -> Result<Directive, Stop>
        ensures { ReadsBy spec.seen_directive (spec.tag_directive start) self.old result self.new }
    {
        self.skip_blanks();
        let handle = self.read_directive_handle(alloc, start)?;
        self.skip_blanks();
        let prefix = self.read_tag_prefix(alloc, start)?;
        if !is_blank_or_breakz(self.look()) {
            return Err(Stop::Refused(Refusal {
                text: FaultText::TagDirectiveEndExpected,
                mark: start,
                may_change: false,
            }));
        }
        Ok(Directive::TagPrefix(handle, prefix))
    }

    // Takes off what follows the name of a directive. The parameters of a reserved directive are passed.
    #[tactic(auto, unfolding(crate::specs::Steps::Directive::value))]
    fn read_directive_value(
        &mut self,
        alloc: Global,
        name: String,
        start: Marker,
    ) -> Result<Directive, Stop>
        ensures { ReadsBy spec.seen_directive (spec.value_of_name start (string_bytes name))
            self.old result self.new }
    {
        if name.as_str() == "YAML" {
            self.spare.keep(name);
            return Ok(self.read_version_directive(start)?);
        }
        if name.as_str() == "TAG" {
            self.spare.keep(name);
            return self.read_tag_directive(alloc, start);
        }
        self.skip_comment();
        Ok(Directive::Reserved(name))
    }

    // Takes off the blanks, the comment and the break after a directive.
    #[tactic(auto, unfolding(crate::specs::Steps::Directive::line_end))]
    fn end_directive_line(&mut self, start: Marker) -> Result<(), Refusal>
        ensures { PassesBy (spec.line_end start) self.old result self.new }
    {
        self.skip_ws_to_eol(SkipTabs::Yes)?;
        if !is_breakz(self.look()) {
            return Err(Refusal {
                text: FaultText::DirectiveEndExpected,
                mark: start,
                may_change: false,
            });
        }
        self.skip_line_break();
        Ok(())
    }

    /// Takes off a directive (YAML 1.2.2, 6.8), from its `%` on to the end of its line: the blanks
    /// and the comment after it, and the break.
    ///
    /// A name without characters, or with a byte order mark after it, is refused after the `%`.
    /// After the directive, a byte order mark, or a comment without a blank before it, is refused
    /// at its own place. All other faults are refused at the `%`: a version number without digits
    /// or with more than nine, no dot between the two, a handle without its last `!`, a prefix
    /// that begins with no character of tags, a percent escape that is not UTF-8, and content
    /// after the directive. The parameters of a reserved directive are passed over.
    #[tactic(auto, unfolding(crate::specs::Steps::Directive::directive))]
    pub fn read_directive(&mut self, alloc: Global) -> Result<DirectiveLine, Stop>
        requires { slice_index (cursor_of self.old).rest 0 ≡ percent_sign }
        ensures { ReadsBy spec.seen_directive_line spec.directive self.old result self.new }
    {
        let start = self.mark;
        self.skip_non_blank();
        let name = self.read_directive_name(alloc)?;
        let directive = self.read_directive_value(alloc, name, start)?;
        let end = self.mark;
        self.end_directive_line(start)?;
        Ok(DirectiveLine { directive, end })
    }
}
