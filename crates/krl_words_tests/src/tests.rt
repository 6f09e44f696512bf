//! Command lines, and the jobs and the tasks that they give.

mod arguments;
mod page;
mod words;
