//! Lines that explain why rows are not written.
use ipc_model::WriteFault;
use ipc_text::schema_from_json;
use job_explain::explain_write;
use std::test::Fail;

// Columns of numbers, texts, lists and texts of a dictionary.
const COLUMNS: &str = r#"{"fields":[
{"children":0,"dictionary":null,"metadata":[],"name":"a","nullable":false,"type":["int",32]},
{"children":0,"dictionary":null,"metadata":[],"name":"b","nullable":false,"type":["utf8"]},
{"children":1,"dictionary":null,"metadata":[],"name":"c","nullable":false,"type":["list"]},
{"children":0,"dictionary":null,"metadata":[],"name":"item","nullable":false,"type":["bool"]},
{"children":0,"dictionary":[7,["int",8],false],"metadata":[],"name":"d","nullable":false,
"type":["utf8"]}],"metadata":[]}"#;

// Whether these bytes are this line.
fn is_line(bytes: &[u8], line: &[u8]) -> bool {
    bytes == line
}

#[test]
fn lists_columns_that_can_be_too_large(rt: HostRuntime) -> Result<(), Fail> {
    let alloc = rt.alloc();
    let schema = schema_from_json(alloc, COLUMNS)?;
    let long = explain_write(alloc, &schema, &WriteFault::TooLong)?;
    assert!(rt;
        is_line(
            &long,
            b"column 1 \"b\" of type [\"utf8\"]: texts of any length\n\
              column 2 \"c\" of type [\"list\"]: lists of any length\n\
              column 3 \"d\" of type [\"utf8\"]: texts of any length\n"
        )
    );
    let many = explain_write(alloc, &schema, &WriteFault::TooManyRows)?;
    assert!(rt;
        is_line(
            &many,
            b"column 2 \"c\" of type [\"list\"]: lists of any length\n\
              column 3 \"d\" of type [\"utf8\"]: dictionary 7 with indices of type [\"int\",8]\n"
        )
    );
    Ok(())
}
