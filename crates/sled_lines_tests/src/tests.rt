// Functions of tests answer `bool`: where an owned value is kept in an answer, a function is proved for each way in which it may be.

mod lines;
mod output;
mod words;
