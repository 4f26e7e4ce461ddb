//! Calls on cells, passes that are lent, worked rows, cells shared between threads, words in memory, and what an error
//! prints.
mod calls;
mod errors;
mod lent;
mod row;
mod shared;
mod words;
