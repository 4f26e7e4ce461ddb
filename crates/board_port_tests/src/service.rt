//! A domain as plain data: what is told of a board, and what a caller knows of a domain that it is lent.
mod lent;
mod rows;
