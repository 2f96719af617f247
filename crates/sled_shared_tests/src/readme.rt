//! An example of docs/GUIDE.md. Its file begins with it, word for word, and runs it.

mod draw_by_two;
