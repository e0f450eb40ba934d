//! The tests of the checker of files, over the public names of `yaml_check`.

mod statuses;
mod texts;
