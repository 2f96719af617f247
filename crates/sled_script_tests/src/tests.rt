// The program over streams that give a piece at a time and that fail, pairs, replies, and the examples of docs/GUIDE.md.
//
// Functions of tests answer `bool`: where an owned value is kept in an answer, a function is proved for each way in which it may be.

mod pairs;
mod program;
mod readme;
mod replies;
mod streams;
