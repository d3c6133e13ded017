use mo_types::{Arg, ArgList, Items, OutOfMemory};
use std::alloc::Global;

/// A row of the list of cases.
#[derive(Clone, Copy)]
pub struct Case<'a> {
    name: &'a str,
    words: &'a str,
}

impl<'a> Case<'a> {
    /// The case of a row: its first two columns, with tabs between the columns.
    pub fn parse(row: &'a str) -> Option<Case<'a>> {
        let (name, columns) = row.split_once('\t')?;
        let (words, _expected) = columns.split_once('\t')?;
        Some(Case { name, words })
    }

    /// The name, which is the path of the folder with its files too.
    pub fn name(&self) -> &'a str {
        self.name
    }

    /// The words of its command line. An empty column is no word, and two spaces side by side have an
    /// empty word between them.
    pub fn words(&self, alloc: Global) -> Result<ArgList, OutOfMemory> {
        let mut words = Items::new(alloc);
        if self.words.is_empty() {
            return Ok(words);
        }
        for word in self.words.split(' ') {
            words.push(Arg::new(String::from_str(alloc, word)?))?;
        }
        Ok(words)
    }
}
