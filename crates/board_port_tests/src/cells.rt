//! The ends of a new board's cells in two threads, and what is known of the cells of any board.
mod ends;
mod lent;
mod post;
