//! The examples of docs/GUIDE.md. Each file begins with one, word for word, and runs it.

mod add_tree;
mod compact_file;
mod open_file;
mod survives_a_crash;
mod written_and_read;
