//! Gear error tables: entries of 1/64 arcsecond in the rows of a book.
//!
//! A table has E entries, 1 to 1,024. A row of k data cells holds e = k div 16 of them, so entry i stands in row i div e at index i mod e,
//! and there in two bytes, low byte first. Only the book's read and write are used. Every call says exactly what it answers and which cells
//! it leaves, and leads on every history of the book. A number of entries that does not fit makes a table of no entries.
#![tactic(auto)]

mod entries;
mod figures;
mod layout;

use book::Book;

/// E entries in the rows of a book.
#[derive(Drop)]
pub struct Table<C, M> {
    book: Book<C, M>,
    entries: u32,
}
