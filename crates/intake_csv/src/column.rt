//! The required columns of a file, and their places in its header.
ghost use Rattle.std.specs.Prelude.{◌≡◌, ◌++◌, ◌∷◌, [], IfOk, OnOk};
ghost use Rattle.intake_csv.specs.Columns.{kind_under, required_column};

use feel_tests::Kind;
use std::alloc::{AllocError, Global};
use std::marker::Model;
use tables::Sequence;

/// The content of the fields of a column.
#[derive(Clone, Copy)]
pub enum Content {
    /// A text that is not empty: the identifier of a claim, a family or a member.
    Identifier,
    /// An amount of money: a whole count of cents that is not negative.
    Money,
    /// A year of four digits, from `0001` to `9999`, as a text.
    Year,
    /// Any value of the kind.
    Plain(Kind),
}

impl Content {
    /// Returns the kind of the column's values.
    pub fn kind(self) -> Kind
        ensures { result ≡ kind_under self }
    {
        match self {
            Content::Identifier => Kind::Text,
            Content::Money => Kind::Number,
            Content::Year => Kind::Text,
            Content::Plain(kind) => kind,
        }
    }
}

/// A required column of a file.
#[derive(Drop)]
pub struct RequiredColumn {
    pub name: HeaderCell,
    pub content: Content,
}

/// The name of a column in a header. Contracts see it as its bytes.
#[derive(Drop)]
pub struct HeaderCell {
    text: String,
}

impl Model for HeaderCell {
    ghost use Rattle.std.specs.Prelude.{List, ℕ, string_bytes};

    ghost Value = { List ℕ };

    ghost view = { λ t. string_bytes t.text };
}

impl HeaderCell {
    /// Copies a name.
    pub fn new(alloc: Global, text: &str) -> Result<HeaderCell, AllocError>
        ensures { IfOk result (λ title. title ≡ text.now) }
    {
        Ok(HeaderCell {
            text: String::from_str(alloc, text)?,
        })
    }

    /// Returns the bytes of the name.
    pub fn as_bytes(&self) -> &[u8]
        ensures { result.now ≡ self.now }
    {
        self.text.as_bytes()
    }
}

/// Appends the required column with this name and content.
pub fn push_column(
    alloc: Global,
    columns: &mut Sequence<RequiredColumn>,
    name: &str,
    content: Content,
) -> Result<(), AllocError>
    ensures { OnOk result (columns.new ≡ columns.old ++ required_column name.now content ∷ []) }
{
    columns.push(required_column(alloc, name, content)?)
}

fn required_column(
    alloc: Global,
    name: &str,
    content: Content,
) -> Result<RequiredColumn, AllocError>
    ensures { IfOk result (λ made. made ≡ required_column name.now content) }
{
    Ok(RequiredColumn {
        name: HeaderCell::new(alloc, name)?,
        content,
    })
}

/// A required column in a file: its place in the header, from 0, and its content.
#[derive(Clone, Copy)]
pub struct Column {
    pub place: usize,
    pub content: Content,
}

/// The number of fields in the header, and the places of the required columns among them.
#[derive(Drop)]
pub struct Layout {
    pub width: usize,
    pub columns: Sequence<Column>,
}

impl Layout {
    /// Copies the layout.
    pub fn duplicate(&self, alloc: Global) -> Result<Layout, AllocError>
        ensures { IfOk result (λ copy. copy ≡ self.now) }
    {
        let mut columns = Sequence::new(alloc);
        for column in self.columns.as_slice() {
            columns.push(*column)?;
        }
        Ok(Layout {
            width: self.width,
            columns,
        })
    }
}
