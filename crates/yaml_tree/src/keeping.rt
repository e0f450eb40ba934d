//! What a table keeps of nodes beside their entries: texts, tags and anchors.
ghost use Rattle.std.specs.Prelude.{◌≡◌, IfOk, OnOk, Some, option_map, slice_get};
ghost use Rattle.saphyr_parser.specs.Views.Events.{resolved_tag};
ghost use Rattle.yaml_tree.specs.GrowerSeen as seen;
ghost use Rattle.yaml_tree.specs.Tables.{HasTagRows, StoresProperties, store_of};
ghost use Rattle.yaml_tree.specs.declared.table.Entry.{Entry as Told};

use crate::table::{Content, Entry, Mark, NodeTable, Properties, Row, TagRows, narrow};
use saphyr_parser::Tag;
use std::alloc::AllocError;

impl NodeTable {
    // Keeps a text.
    #[inline(always)]
    pub(crate) fn keep_text(&mut self, text: &[u8]) -> Result<Row, AllocError>
        ensures { IfOk result (λ row. seen.StoresText text.now row self.old self.new) }
    {
        let first = narrow(self.texts.len())?;
        let count = narrow(text.len())?;
        self.texts.extend_from_slice(text)?;
        Ok(Row { first, count })
    }

    // Keeps the properties of the next node. Returns their number, or 0 if it has none.
    #[inline(always)]
    pub(crate) fn keep(&mut self, id: usize, tag: &Option<Tag>) -> Result<u32, AllocError>
        ensures stores { OnOk result (seen.Stores self.old self.new) }
        ensures properties { IfOk result (λ number. StoresProperties (store_of self.new) number id
            (option_map resolved_tag tag.now)) }
    {
        if id == 0 && tag.is_none() {
            return Ok(0);
        }
        self.keep_some(id, tag)
    }

    fn keep_some(&mut self, id: usize, tag: &Option<Tag>) -> Result<u32, AllocError>
        ensures stores { OnOk result (seen.Stores self.old self.new) }
        ensures properties { IfOk result (λ number. StoresProperties (store_of self.new) number id
            (option_map resolved_tag tag.now)) }
    {
        let anchor = narrow(id)?;
        let tag = self.keep_tag(tag)?;
        self.expect_at(id)?;
        self.properties.push(Properties { anchor, tag })?;
        narrow(self.properties.len())
    }

    fn keep_tag(&mut self, tag: &Option<Tag>) -> Result<Option<TagRows>, AllocError>
        ensures stores { OnOk result (seen.StoresTexts self.old self.new) }
        ensures tag { IfOk result (λ rows. HasTagRows self.new.texts.items rows
            (option_map resolved_tag tag.now)) }
    {
        let Some(tag) = tag else {
            return Ok(None);
        };
        let handle = self.keep_text(tag.handle.as_str().as_bytes())?;
        let suffix = self.keep_text(tag.suffix.as_str().as_bytes())?;
        Ok(Some(TagRows { handle, suffix }))
    }

    // Notes which node has this anchor, unless it is none, if the ids so far are numbers in a row.
    fn expect_at(&mut self, id: usize) -> Result<(), AllocError>
        ensures { seen.KeepsNodes self.old self.new }
    {
        if id == 0 {
            return Ok(());
        }
        let number = narrow(self.entries.len())?;
        if self.anchored.is_empty() {
            self.first_anchor = id;
        }
        if id.wrapping_sub(self.first_anchor) == self.anchored.len() {
            self.anchored.push(number)?;
        }
        Ok(())
    }

    // A collection ends: its parts are known now.
    pub(crate) fn close(&mut self, number: usize, row: Row, end: Mark) -> Result<(), AllocError>
        ensures { OnOk result ((entry : Told)
            × (slice_get self.old.entries.items number ≡ Some entry)
            × seen.ClosesEntry number row end entry self.old self.new) }
    {
        let Some(entry) = self.entries.get(number) else {
            return Err(AllocError);
        };
        let entry = *entry;
        self.entries[number] = Entry {
            content: entry.content.with_row(row),
            start: entry.start,
            end,
        };
        Ok(())
    }
}

impl Content {
    // The same collection with these parts.
    fn with_row(self, row: Row) -> Content
        ensures { result ≡ seen.with_row row self }
    {
        match self {
            Content::Alias(_) => self,
            Content::Scalar(_, _, _) => self,
            Content::Sequence(_, properties) => Content::Sequence(row, properties),
            Content::Mapping(_, properties) => Content::Mapping(row, properties),
        }
    }
}
