//! The offsets of a document's keys and values.

use std::alloc::{AllocError, Global};
use std::collections::BTreeMap;

/// A step on the way to a value: a key of a table, or an item of an array, counted from 0.
#[derive(Clone, Copy)]
pub enum Step {
    Key(&'static str),
    Item(usize),
}

/// A key with its value, or an item of an array.
#[derive(Drop)]
pub struct Node {
    /// The number of the table or array that contains it, which is less than its own.
    pub parent: usize,
    /// None for an item.
    pub key: Option<String>,
    /// The numbers of the values of its keys. A map, since a text may have tens of thousands of keys, and each header looks some of them up.
    below: BTreeMap<String, usize>,
    /// The index of an item in its array, from 0.
    pub item: usize,
    /// The offset of the key, or of an item's value or header.
    pub at: usize,
    /// The offset of the value.
    pub value_at: usize,
    /// The number of its items.
    pub items: usize,
    /// The number of its last item.
    pub last: usize,
}

/// The keys and values of a document in the order of the text. The first is the document itself.
#[derive(Drop)]
pub struct Places {
    alloc: Global,
    nodes: Vec<Node>,
}

impl Places {
    pub fn new(alloc: Global) -> Result<Places, AllocError> {
        let mut places = Places {
            alloc,
            nodes: Vec::new(alloc),
        };
        places.push(0, None, 0, 0)?;
        Ok(places)
    }

    /// All nodes, in the order of their numbers.
    pub fn nodes(&self) -> &[Node] {
        self.nodes.as_slice()
    }

    /// The offset of the value at the end of the steps; if that does not exist, of the last one on the way that does.
    pub fn nearest_node(&self, steps: &[Step]) -> usize {
        let mut here = 0;
        for step in steps {
            let child = match *step {
                Step::Key(key) => self.value_of(here, key),
                Step::Item(item) => self.item_of(here, item),
            };
            match child {
                Some(child) => here = child,
                None => break,
            }
        }
        match self.nodes.get(here) {
            Some(node) => node.value_at,
            None => 0,
        }
    }

    fn value_of(&self, parent: usize, key: &str) -> Option<usize> {
        self.nodes.get(parent)?.below.get(key).copied()
    }

    fn item_of(&self, parent: usize, item: usize) -> Option<usize> {
        let mut number = 0usize;
        for node in &self.nodes {
            if number > 0 && node.key.is_none() && node.parent == parent && node.item == item {
                return Some(number);
            }
            number = number.saturating_add(1);
        }
        None
    }

    // Adds a key, or an item if there is no key, and returns its number.
    pub fn push(
        &mut self,
        parent: usize,
        key: Option<String>,
        at: usize,
        value_at: usize,
    ) -> Result<usize, AllocError> {
        let number = self.nodes.len();
        let item = self.add_below(parent, &key, number)?;
        self.nodes.push(Node {
            parent,
            key,
            below: BTreeMap::new(self.alloc),
            item,
            at,
            value_at,
            items: 0,
            last: 0,
        })?;
        Ok(number)
    }

    // Adds a key or an item to the table or the array that has it, and returns the index of the item. The document itself is in neither.
    fn add_below(
        &mut self,
        parent: usize,
        key: &Option<String>,
        number: usize,
    ) -> Result<usize, AllocError> {
        let Some(node) = self.nodes.get_mut(parent) else {
            return Ok(0);
        };
        let Some(key) = key else {
            let item = node.items;
            node.items = item.saturating_add(1);
            node.last = number;
            return Ok(item);
        };
        // Of two equal keys the first one counts.
        if node.below.get(key.as_str()).is_none() {
            let _before = node.below.insert(key.clone()?, number)?;
        }
        Ok(0)
    }

    // The table at a part of a dotted key. TOML: if that part is an array of tables, its last item is meant; if it does not exist, the key defines it.
    pub fn table_under(
        &mut self,
        parent: usize,
        key: &str,
        at: usize,
    ) -> Result<usize, AllocError> {
        match self.value_of(parent, key) {
            Some(child) => match self.nodes.get(child) {
                Some(node) if node.items > 0 => Ok(node.last),
                _ => Ok(child),
            },
            None => {
                let key = String::from_str(self.alloc, key)?;
                self.push(parent, Some(key), at, at)
            }
        }
    }

    // The table of a header; for one in double brackets a new item of its array, which the first such header defines.
    pub fn section(
        &mut self,
        parent: usize,
        key: String,
        at: usize,
        is_array: bool,
    ) -> Result<usize, AllocError> {
        if !is_array {
            return self.table_under(parent, key.as_str(), at);
        }
        let array = match self.value_of(parent, key.as_str()) {
            Some(child) => child,
            None => self.push(parent, Some(key), at, at)?,
        };
        self.push(array, None, at, at)
    }
}
