//! Records: a table and a book as bytes, and the lines of a listing.
#![tactic(auto)]

mod book_puts;
pub mod book_reading;
mod book_records;
mod book_scanning;
pub mod book_writing;
mod kinds;
mod laying;
mod leaf_line;
mod leaf_sizes;
pub mod listing;
mod own_replies;
mod pen;
pub mod reading;
mod record_bytes;
mod scanning;
mod several;
mod table_puts;
pub mod table_size;
mod unread;
pub mod writing;
