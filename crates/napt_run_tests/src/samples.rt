//! Values that tests share and compare with results: hosts, captures and configurations.

pub mod captures;
pub mod hosts;
pub mod settings;
