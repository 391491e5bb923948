//! The file with the schema that a job names.
use ipc_device::{Device, Retry};
use job_arguments::{Invocation, Job, Usage};
use std::fs::File;
use std::io;

/// The file with the schema, or why the system did not open it.
#[derive(Drop)]
pub struct SchemaFile {
    /// Its path; empty if the words name none.
    pub path: String,
    /// The file, if it was opened.
    pub file: Option<Device<Retry<File>>>,
    /// The system's error code, if it was not opened.
    pub code: Option<i32>,
}

// The path of the file with the schema, if the words name one: that of the records, or that which a
// stream must have.
fn schema_path(invocation: &Invocation) -> Option<&String> {
    match &invocation.job {
        Job::FromCsv { schema, .. } => Some(schema),
        _ => invocation.expect.as_ref(),
    }
}

/// Opens the file with the schema, if the words name one.
pub fn open_schema(rt: &HostRuntime, invocation: &Invocation) -> Result<SchemaFile, Usage> {
    let Some(schema) = schema_path(invocation) else {
        return Ok(SchemaFile {
            path: String::new(rt.alloc()),
            file: None,
            code: None,
        });
    };
    let path = String::from_str(rt.alloc(), schema.as_str())?;
    match File::open(rt, schema.as_str()) {
        Ok(file) => Ok(SchemaFile {
            path,
            file: Some(Device::new(Retry::new(file))),
            code: None,
        }),
        Err(error) if error.kind() == io::ErrorKind::OutOfMemory => Err(Usage::OutOfMemory),
        Err(error) => Ok(SchemaFile {
            path,
            file: None,
            code: error.raw_os_error(),
        }),
    }
}
