//! Lines, answers and pairs of both, used from outside: read, run, judged and driven, with the streams and the endings of
//! programs.
#![tactic(auto)]

#[cfg(test)]
mod answers;
#[cfg(test)]
mod driven_lines;
#[cfg(test)]
mod endings;
#[cfg(test)]
mod idle;
#[cfg(test)]
mod lines;
#[cfg(test)]
mod reading;
#[cfg(test)]
mod running;
#[cfg(test)]
mod same;
#[cfg(test)]
mod streams;
#[cfg(test)]
mod verdicts;
