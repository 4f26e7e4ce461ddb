//! What a checker of sessions keeps, used from outside: things by their names, rows and tables of boards and of events.
#![tactic(auto)]

#[cfg(test)]
mod rows_of_boards;
#[cfg(test)]
mod rows_of_events;
#[cfg(test)]
mod seats;
#[cfg(test)]
mod tables_of_boards;
#[cfg(test)]
mod tables_of_events;
#[cfg(test)]
mod things;
