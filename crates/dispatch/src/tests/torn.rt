//! Torn and hostile input: instances that are cut and changed, devices that fail, scripts that are cut, and numbers at their ends.

pub(crate) mod devices;
mod instances;
mod numbers;
mod plain;
mod scripts;
