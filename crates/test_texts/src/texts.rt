//! Texts that are compared with the wanted ones.
use csv::ByteRecord;
use ipc_model::{Items, Row, Schema, Text, Value};
use ipc_text::{
    Dialect, RowShape, TextFault, check_header, csv_header, csv_record, fill_row_from_csv,
    pairs_json, row_from_csv, row_json, schema_from_json, schema_json,
};
use std::alloc::{AllocError, Global};
use std::test::Fail;

// A schema of five columns, and pairs.
const FLAT: &str = "{\"fields\":[\
{\"children\":0,\"dictionary\":null,\"metadata\":[],\"name\":\"id\",\"nullable\":true,\
\"type\":[\"int\",32]},\
{\"children\":0,\"dictionary\":null,\"metadata\":[],\"name\":\"\\\"n\\\"\",\"nullable\":true,\
\"type\":[\"utf8\"]},\
{\"children\":0,\"dictionary\":null,\"metadata\":[],\"name\":\"day\",\"nullable\":true,\
\"type\":[\"date\",\"day\"]},\
{\"children\":0,\"dictionary\":null,\"metadata\":[[\"a\",\"\"]],\"name\":\"raw\",\
\"nullable\":false,\"type\":[\"fixed_size_binary\",2]},\
{\"children\":0,\"dictionary\":null,\"metadata\":[],\"name\":\"at\",\"nullable\":true,\
\"type\":[\"timestamp\",\"us\",\"UTC\"]}],\
\"metadata\":[[\"k\",\"v\"]]}";

// A list of structs, and a column with a dictionary.
const NESTED: &str = "{\"fields\":[\
{\"children\":1,\"dictionary\":null,\"metadata\":[],\"name\":\"l\",\"nullable\":true,\
\"type\":[\"list\"]},\
{\"children\":2,\"dictionary\":null,\"metadata\":[],\"name\":\"s\",\"nullable\":false,\
\"type\":[\"struct\"]},\
{\"children\":0,\"dictionary\":null,\"metadata\":[],\"name\":\"t\",\"nullable\":true,\
\"type\":[\"time\",\"ns\"]},\
{\"children\":0,\"dictionary\":null,\"metadata\":[],\"name\":\"d\",\"nullable\":true,\
\"type\":[\"duration\",\"s\"]},\
{\"children\":0,\"dictionary\":[-3,[\"uint\",8],true],\"metadata\":[],\"name\":\"\",\
\"nullable\":true,\"type\":[\"utf8\"]}],\
\"metadata\":[]}";

// Columns whose names are empty, repeated, or of control characters.
const NAMES: &str = "{\"fields\":[\
{\"children\":0,\"dictionary\":null,\"metadata\":[],\"name\":\"\",\"nullable\":true,\
\"type\":[\"bool\"]},\
{\"children\":0,\"dictionary\":null,\"metadata\":[],\"name\":\"\",\"nullable\":true,\
\"type\":[\"bool\"]},\
{\"children\":0,\"dictionary\":null,\"metadata\":[],\"name\":\"\\u0001\\n\",\"nullable\":true,\
\"type\":[\"bool\"]}],\"metadata\":[]}";

// Columns of the widest numbers and of booleans.
const NUMBERS: &str = "{\"fields\":[\
{\"children\":0,\"dictionary\":null,\"metadata\":[],\"name\":\"i\",\"nullable\":true,\
\"type\":[\"int\",64]},\
{\"children\":0,\"dictionary\":null,\"metadata\":[],\"name\":\"u\",\"nullable\":true,\
\"type\":[\"uint\",64]},\
{\"children\":0,\"dictionary\":null,\"metadata\":[],\"name\":\"b\",\"nullable\":true,\
\"type\":[\"bool\"]}],\"metadata\":[]}";

// What is asked under a schema.
#[derive(Clone, Copy)]
enum Ask {
    // The text of the schema.
    Schema,
    // Its pairs.
    Pairs,
    // The header of its columns.
    Header,
    // Nothing if the record is that header.
    IsHeader,
    // The record's row as JSON, in this shape.
    Json(RowShape),
    // The same as an array, of a row that is read over that of `FIELDS`.
    JsonOver,
    // The record's row as a record again.
    Record,
}

// Record 3 as a row.
fn row_of(alloc: Global, schema: &Schema, fields: &[&[u8]]) -> Result<Row, TextFault> {
    row_from_csv(
        alloc,
        Dialect::standard(),
        schema,
        3,
        &ByteRecord::from_fields(alloc, fields)?,
    )
}

fn json_of(
    alloc: Global,
    shape: RowShape,
    schema: &Schema,
    fields: &[&[u8]],
) -> Result<String, TextFault> {
    let row = row_of(alloc, schema, fields)?;
    row_json(alloc, shape, schema, row.as_slice())
}

fn json_over(alloc: Global, schema: &Schema, fields: &[&[u8]]) -> Result<String, TextFault> {
    let fields = ByteRecord::from_fields(alloc, fields)?;
    let mut row = row_of(alloc, schema, &FIELDS)?;
    fill_row_from_csv(alloc, Dialect::standard(), schema, 4, &fields, &mut row)?;
    row_json(alloc, RowShape::Array, schema, row.as_slice())
}

fn record_of(alloc: Global, schema: &Schema, fields: &[&[u8]]) -> Result<Vec<u8>, TextFault> {
    let row = row_of(alloc, schema, fields)?;
    csv_record(alloc, Dialect::standard(), schema, row.as_slice())
}

fn judge(alloc: Global, schema: &Schema, fields: &[&[u8]]) -> Result<Vec<u8>, TextFault> {
    check_header(schema, &ByteRecord::from_fields(alloc, fields)?)?;
    Ok(Vec::new(alloc))
}

fn bytes_of(text: Result<String, TextFault>) -> Result<Vec<u8>, TextFault> {
    match text {
        Ok(text) => Ok(text.into_bytes()),
        Err(fault) => Err(fault),
    }
}

fn answer(alloc: Global, schema: &Schema, case: &Case) -> Result<Vec<u8>, TextFault> {
    match case.ask {
        Ask::Schema => bytes_of(schema_json(alloc, schema)),
        Ask::Pairs => bytes_of(pairs_json(alloc, schema.metadata.as_slice())),
        Ask::Header => csv_header(alloc, Dialect::standard(), schema),
        Ask::IsHeader => judge(alloc, schema, case.fields),
        Ask::Json(shape) => bytes_of(json_of(alloc, shape, schema, case.fields)),
        Ask::JsonOver => bytes_of(json_over(alloc, schema, case.fields)),
        Ask::Record => record_of(alloc, schema, case.fields),
    }
}

// Whether a case has its wanted answer. If memory ran out, there is no answer.
fn is_answered(alloc: Global, case: &Case) -> Result<bool, TextFault> {
    let schema = schema_from_json(alloc, case.schema)?;
    match answer(alloc, &schema, case) {
        Ok(text) => Ok(matches!(case.wanted, Ok(wanted) if wanted.as_bytes() == text.as_slice())),
        Err(TextFault::OutOfMemory) => Err(TextFault::OutOfMemory),
        Err(fault) => Ok(matches!(case.wanted, Err(wanted) if wanted == fault)),
    }
}

// What is asked under a schema, of a record if it takes one, and the wanted answer.
struct Case {
    schema: &'static str,
    ask: Ask,
    fields: &'static [&'static [u8]],
    wanted: Result<&'static str, TextFault>,
}

const FIELDS: [&[u8]; 5] = [
    b"-7",
    b"\\\\N",
    b"2000-02-29",
    b"00Ab",
    b"1969-12-31T23:59:59.999999Z",
];

const CASES: [Case; 18] = [
    Case {
        schema: FLAT,
        ask: Ask::Schema,
        fields: &[],
        wanted: Ok(FLAT),
    },
    Case {
        schema: NESTED,
        ask: Ask::Schema,
        fields: &[],
        wanted: Ok(NESTED),
    },
    // Members in another order, and blanks.
    Case {
        schema: "{ \"metadata\":[], \"fields\":[\n] }",
        ask: Ask::Schema,
        fields: &[],
        wanted: Ok("{\"fields\":[],\"metadata\":[]}"),
    },
    Case {
        schema: FLAT,
        ask: Ask::Pairs,
        fields: &[],
        wanted: Ok("[[\"k\",\"v\"]]"),
    },
    Case {
        schema: FLAT,
        ask: Ask::Header,
        fields: &[],
        wanted: Ok("id,\"\"\"n\"\"\",day,raw,at\n"),
    },
    Case {
        schema: NESTED,
        ask: Ask::Header,
        fields: &[],
        wanted: Err(TextFault::NotFlat),
    },
    Case {
        schema: FLAT,
        ask: Ask::IsHeader,
        fields: &[b"id", b"\"n\"", b"day", b"raw", b"at"],
        wanted: Ok(""),
    },
    Case {
        schema: FLAT,
        ask: Ask::IsHeader,
        fields: &[b"id", b"\"n\"", b"Day", b"raw", b"At"],
        wanted: Err(TextFault::BadField {
            record: 0,
            column: 2,
        }),
    },
    Case {
        schema: FLAT,
        ask: Ask::IsHeader,
        fields: &[b"id", b"\"n\"", b"Day", b"raw"],
        wanted: Err(TextFault::WrongFieldCount { record: 0 }),
    },
    Case {
        schema: FLAT,
        ask: Ask::Json(RowShape::Array),
        fields: &FIELDS,
        wanted: Ok("[-7,\"\\\\N\",\"2000-02-29\",\"00ab\",\"1969-12-31T23:59:59.999999Z\"]"),
    },
    Case {
        schema: FLAT,
        ask: Ask::Json(RowShape::Object),
        fields: &FIELDS,
        wanted: Ok(
            "{\"id\":-7,\"\\\"n\\\"\":\"\\\\N\",\"day\":\"2000-02-29\",\"raw\":\"00ab\",\
\"at\":\"1969-12-31T23:59:59.999999Z\"}",
        ),
    },
    Case {
        schema: NAMES,
        ask: Ask::Json(RowShape::Object),
        fields: &[b"true", b"false", b"\\N"],
        wanted: Ok("{\"\":true,\"\":false,\"\\u0001\\n\":null}"),
    },
    Case {
        schema: NUMBERS,
        ask: Ask::Json(RowShape::Array),
        fields: &[b"-9223372036854775808", b"18446744073709551615", b"false"],
        wanted: Ok("[-9223372036854775808,18446744073709551615,false]"),
    },
    Case {
        schema: NUMBERS,
        ask: Ask::Json(RowShape::Array),
        fields: &[b"-0", b"0", b"true"],
        wanted: Err(TextFault::BadField {
            record: 3,
            column: 0,
        }),
    },
    Case {
        schema: FLAT,
        ask: Ask::Record,
        fields: &FIELDS,
        wanted: Ok("-7,\\\\N,2000-02-29,00ab,1969-12-31T23:59:59.999999Z\n"),
    },
    Case {
        schema: FLAT,
        ask: Ask::JsonOver,
        fields: &[b"\\N", b"n", b"\\N", b"0000", b"\\N"],
        wanted: Ok("[null,\"n\",null,\"0000\",null]"),
    },
    Case {
        schema: FLAT,
        ask: Ask::Json(RowShape::Array),
        fields: &[b"-7", b"\\x", b"x", b"00ab", b""],
        wanted: Err(TextFault::BadField {
            record: 3,
            column: 1,
        }),
    },
    Case {
        schema: FLAT,
        ask: Ask::Json(RowShape::Array),
        fields: &[b"-7", b"\\x", b"x", b"00ab"],
        wanted: Err(TextFault::WrongFieldCount { record: 3 }),
    },
];

#[test]
fn grows_schemas_and_records(rt: HostRuntime) -> Result<(), Fail> {
    for (number, case) in CASES.iter().enumerate() {
        assert!(rt; is_answered(rt.alloc(), case)?, "case {number}");
    }
    Ok(())
}

// A row of `NESTED`: a list of two structs, and a text.
fn nested_row(alloc: Global) -> Result<Row, AllocError> {
    let first = vec![in alloc; Value::Int(45_296_000_000_007), Value::Int(-5)]?;
    let second = vec![in alloc; Value::Null, Value::Null]?;
    let first = Value::Struct(Items::from_vec(first));
    let structs = vec![in alloc; first, Value::Struct(Items::from_vec(second))]?;
    let text = Text::from_string(String::from_str(alloc, "x")?);
    let row = vec![in alloc; Value::List(Items::from_vec(structs)), Value::Text(text)]?;
    Ok(Items::from_vec(row))
}

#[test]
fn objects(rt: HostRuntime) -> Result<(), Fail> {
    let alloc = rt.alloc();
    let schema = schema_from_json(alloc, NESTED)?;
    let text = row_json(
        alloc,
        RowShape::Object,
        &schema,
        nested_row(alloc)?.as_slice(),
    )?;
    let wanted =
        "{\"l\":[{\"t\":\"12:34:56.000000007\",\"d\":-5},{\"t\":null,\"d\":null}],\"\":\"x\"}";
    assert!(rt; text.as_str() == wanted);
    Ok(())
}
