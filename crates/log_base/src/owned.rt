//! Bytes, text and lists as contracts compare them: each is seen as the list of its elements, and
//! nothing of where it lies in memory. Making one and giving it back takes no memory.

ghost use Rattle.std.specs.Prelude.{◌≡◌, string_bytes};

use std::marker::Model;

/// The bytes of a record or a payload.
#[derive(Debug, Drop)]
pub struct Bytes {
    inner: Vec<u8>,
}

impl Model for Bytes {
    ghost use Rattle.std.specs.Prelude.{List as Items, ℕ};

    ghost Value = { Items ℕ };

    ghost view = { λ b. b.inner.items };
}

impl Bytes {
    /// The bytes of a vector, which is moved.
    pub fn of(inner: Vec<u8>) -> Bytes
        ensures { result ≡ inner.items }
    {
        Bytes { inner }
    }

    /// Lends the bytes.
    pub fn get(&self) -> &[u8]
        ensures { result.now ≡ self.now }
    {
        &self.inner
    }

    /// Gives the vector back.
    pub fn into_inner(self) -> Vec<u8>
        ensures { result.items ≡ self }
    {
        self.inner
    }
}

/// A text, seen as its bytes in UTF-8.
#[derive(Debug, Drop)]
pub struct Text {
    inner: String,
}

impl Model for Text {
    ghost use Rattle.std.specs.Prelude.{List as Items, ℕ, string_bytes};

    ghost Value = { Items ℕ };

    ghost view = { λ t. string_bytes t.inner };
}

impl Text {
    /// The text of a string, which is moved.
    pub fn of(inner: String) -> Text
        ensures { result ≡ string_bytes inner }
    {
        Text { inner }
    }

    /// Lends the text.
    pub fn get(&self) -> &str
        ensures { result.now ≡ self.now }
    {
        self.inner.as_str()
    }

    /// Gives the string back.
    pub fn into_inner(self) -> String
        ensures { string_bytes result ≡ self }
    {
        self.inner
    }
}

/// A list of values.
#[derive(Debug, Drop)]
pub struct List<T> {
    inner: Vec<T>,
}

impl<T> Model for List<T> {
    ghost use Rattle.std.specs.Prelude.{List as Items};

    ghost Value = { Items T };

    ghost view = { λ l. l.inner.items };
}

impl<T> List<T> {
    /// The elements of a vector, which is moved.
    pub fn of(inner: Vec<T>) -> List<T>
        ensures { result ≡ inner.items }
    {
        List { inner }
    }

    /// Lends the elements.
    pub fn get(&self) -> &[T]
        ensures { result.now ≡ self.now }
    {
        &self.inner
    }

    /// Gives the vector back.
    pub fn into_inner(self) -> Vec<T>
        ensures { result.items ≡ self }
    {
        self.inner
    }
}
