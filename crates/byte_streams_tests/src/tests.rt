//! Facts that no contract states: calls with ample memory, devices that fail.

mod buffer;
mod page;
mod pull;
mod reader;
mod rest;
mod writer;
