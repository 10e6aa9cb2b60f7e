//! What `--details` says after the line of a fault.
use crate::cases::fails_by;
use std::alloc::Global;
use std::process::Abort;
use std::sync::Wait;
use std::test::Fail;
use std::thread::Threads;

/// A plan of one file with the columns `id` and `v`, both whole numbers.
const TWO_INTS: &str =
    r#"{"version":1,"sources":[{"files":1,"columns":[["id","int"],["v","int"]]}],"steps":[]}"#;

/// A file, and the lines of its fault under the plan of two whole numbers.
type Row = (&'static str, &'static str);

// Each file ends in its fault, with details, at status 4.
fn files_fail<R: Abort + Threads + Wait + Sync>(
    rt: &R,
    alloc: Global,
    rows: &[Row],
) -> Result<(), Fail> {
    for (file, fault) in rows {
        let files = &[*file];
        fails_by(
            rt,
            alloc,
            "--plan plan --details 0",
            TWO_INTS,
            files,
            "",
            4,
            *fault,
        )?;
    }
    Ok(())
}

#[test]
fn the_line_of_a_bad_cell(rt: HostRuntime) -> Result<(), Fail> {
    files_fail(
        &rt,
        rt.alloc(),
        &[
            (
                "id,v\n1,2\n3,x\n",
                "file 0, row 2, column 1: bad cell\n  0:3: column \"v\": \"x\" is not an int",
            ),
            (
                "id,v\r\n1,2\r\n3,x\r\n",
                "file 0, row 2, column 1: bad cell\n  0:3: column \"v\": \"x\" is not an int",
            ),
            (
                "id,v\r1,2\r3,x\r",
                "file 0, row 2, column 1: bad cell\n  0:1: column \"v\": \"x\" is not an int",
            ),
            (
                "\n\nid,v\n\r\n\n1,2\n\n\n\"3\n\",4",
                "file 0, row 2, column 0: bad cell\n  0:9: column \"id\": \"3\\n\" is not an int",
            ),
            (
                "\u{FEFF}id,v\n1,2\n3,2.0",
                "file 0, row 2, column 1: bad cell\n  0:3: column \"v\": \"2.0\" is not an int",
            ),
        ],
    )
}

#[test]
fn a_quote_that_is_not_closed(rt: HostRuntime) -> Result<(), Fail> {
    files_fail(
        &rt,
        rt.alloc(),
        &[
            (
                "id,v\n1,\"5\n2,6\n",
                "file 0, row 1, column 1: bad cell\n  0:2: column \"v\": \"5\\n2,6\\n\" is not an int; a quote in this record is not closed",
            ),
            (
                "id,v\n1,5\n2,6,\"\n3,7\n",
                "file 0, row 2: wrong number of fields\n  0:3: 3 fields, the header has 2; a quote in this record is not closed",
            ),
            (
                "id,v\n1,2\n\"3\n\",\"x\n",
                "file 0, row 2, column 0: bad cell\n  0:3: column \"id\": \"3\\n\" is not an int; a quote in this record is not closed",
            ),
            (
                "id,v\n1,x\n2,\"6\n",
                "file 0, row 1, column 1: bad cell\n  0:2: column \"v\": \"x\" is not an int",
            ),
        ],
    )
}

#[test]
fn headers_and_widths(rt: HostRuntime) -> Result<(), Fail> {
    files_fail(
        &rt,
        rt.alloc(),
        &[
            ("", "file 0: header differs\n  0: it has no header"),
            (
                "id, v\n1,2\n",
                "file 0: header differs\n  0:1: column 1 is \" v\", the plan has \"v\"",
            ),
            (
                "\nID,v\n1,2\n",
                "file 0: header differs\n  0:2: column 0 is \"ID\", the plan has \"id\"",
            ),
            (
                "id\n1\n",
                "file 0: header differs\n  0:1: column 1 is missing, the plan has \"v\"",
            ),
            (
                "id,v,w\n1,2,3\n",
                "file 0: header differs\n  0:1: it has 3 columns, the plan has 2",
            ),
            (
                "id,v\n1,2\n\n3\n",
                "file 0, row 2: wrong number of fields\n  0:4: 1 field, the header has 2",
            ),
        ],
    )
}

#[test]
fn a_long_field_is_cut(rt: HostRuntime) -> Result<(), Fail> {
    files_fail(
        &rt,
        rt.alloc(),
        &[
            (
                "id,v\n12345678901234567890123456789012345678901234567890123456789012345678901234567890,2\n",
                "file 0, row 1, column 0: bad cell\n  0:2: column \"id\": \"12345678901234567890123456789012345678901234567890123456789012345678901234567890\" is not an int",
            ),
            (
                "id,v\n123456789012345678901234567890123456789012345678901234567890123456789012345678901,2\n",
                "file 0, row 1, column 0: bad cell\n  0:2: column \"id\": \"12345678901234567890123456789012345678901234567890123456789012345678901234567890\".. is not an int",
            ),
        ],
    )
}

#[test]
fn standard_input_is_not_read_again(rt: HostRuntime) -> Result<(), Fail> {
    let rows = [
        (
            "id,v\n1,x\n",
            "file 0, row 1, column 1: bad cell\n  -: column \"v\" is an int; it cannot be read again",
        ),
        (
            "id\n1\n",
            "file 0: header differs\n  -: the plan has \"id\", \"v\"; it cannot be read again",
        ),
        (
            "id,v\n1\n",
            "file 0, row 1: wrong number of fields\n  -: the header has 2; it cannot be read again",
        ),
    ];
    let alloc = rt.alloc();
    for (input, fault) in rows {
        fails_by(
            &rt,
            alloc,
            "--plan plan --details -",
            TWO_INTS,
            &[],
            input,
            4,
            fault,
        )?;
    }
    Ok(())
}

#[test]
fn files_that_are_missing(rt: HostRuntime) -> Result<(), Fail> {
    let alloc = rt.alloc();
    let plan =
        r#"{"version":1,"sources":[{"files":3,"columns":[["a","int"],["b","int"],["c","text"]]},{"files":1,"columns":[["id","int"]]}],"steps":[]}"#;
    let rows = [
        (
            "--plan plan --details 0",
            2,
            "inputs: wanted 4, got 1\n  source 0 (\"a\", \"b\", ..): 0, 2 missing\n  source 1 (\"id\"): missing",
        ),
        (
            "--plan plan --details 0 1 2 3 4 5",
            2,
            "inputs: wanted 4, got 6\n  source 0 (\"a\", \"b\", ..): 0, 1, 2\n  source 1 (\"id\"): 3\n  not wanted: 4\n  not wanted: 5",
        ),
        (
            "--plan plan --details 0 1 2 none",
            5,
            "read failed: file 3\n  none: entity not found",
        ),
        (
            "--plan none --details 0",
            5,
            "cannot read plan\n  none: entity not found",
        ),
        (
            "--plan - --details 0 - 1 -",
            2,
            "standard input (-) can be read only once\n  the plan is -\n  file 1 is -\n  file 3 is -",
        ),
    ];
    let files = &["a,b,c\n", "a,b,c\n", "a,b,c\n", "id\n"];
    for (line, status, fault) in rows {
        fails_by(&rt, alloc, line, plan, files, "", status, fault)?;
    }
    Ok(())
}

#[test]
fn steps_that_fault(rt: HostRuntime) -> Result<(), Fail> {
    let alloc = rt.alloc();
    let file = "id,v\n1,9223372036854775807\n1,1\n";
    let rows = [
        (
            r#"{"with_columns":[["w",{"col":"v"}],["cents",["mul",{"col":"v"},100]]]}"#,
            "step 0, item 1: overflow\n  with_columns \"cents\"",
        ),
        (
            r#"{"select":[["n",["add",{"col":"v"},1]]]}"#,
            "step 0, item 0: overflow\n  select \"n\"",
        ),
        (
            r#"{"filter":["gt",["add",{"col":"v"},1],0]}"#,
            "step 0, item 0: overflow\n  filter",
        ),
        (
            r#"{"group_by":{"keys":["id"],"aggs":[["n","len"],["total","sum","v"]]}}"#,
            "step 0, item 1: sum out of range\n  group_by \"total\", sum of \"v\"",
        ),
        (
            r#"{"rolling_sum":{"column":"v","window":2,"name":"r"}}"#,
            "step 0: rolling sum out of range\n  rolling_sum \"r\" of \"v\"",
        ),
    ];
    for (step, fault) in rows {
        let plan = format!(in alloc;
            "{{\"version\":1,\"sources\":[{{\"files\":1,\"columns\":[[\"id\",\"int\"],[\"v\",\"int\"]]}}],\"steps\":[{step}]}}"
        )?;
        fails_by(
            &rt,
            alloc,
            "--plan plan --details 0",
            plan.as_str(),
            &[file],
            "",
            4,
            fault,
        )?;
    }
    Ok(())
}

/// A step, or a text, and what is said of it.
type Said = (&'static str, &'static str);

// Each text is no JSON, for this reason.
fn texts_fail<R: Abort + Threads + Wait + Sync>(
    rt: &R,
    alloc: Global,
    rows: &[Said],
) -> Result<(), Fail> {
    for (text, reason) in rows {
        let fault = format!(in alloc; "plan: not JSON\n  plan:{reason}")?;
        let line = "--plan plan --details 0";
        fails_by(rt, alloc, line, *text, &[], "", 3, fault.as_str())?;
    }
    Ok(())
}

#[test]
fn texts_that_are_not_json(rt: HostRuntime) -> Result<(), Fail> {
    texts_fail(
        &rt,
        rt.alloc(),
        &[
            ("// a plan\n{}", "1:1: found \"/\"; JSON has no comments"),
            ("{\n  # a plan\n}", "2:3: found \"#\"; JSON has no comments"),
            ("", "1:1: the text ends here"),
            ("{\"version\": 1, \"steps\": [", "1:25: the text ends here"),
            ("{'version': 1}", "1:2: found \"'\""),
            ("{\"a\": é}", "1:7: found \"é\""),
            ("{\"version\": 1} {}", "1:16: found \"{\""),
            ("{\"a\" \"b\"}", "1:6: found \"\\\"\""),
        ],
    )
}

#[test]
fn strings_that_are_not_json(rt: HostRuntime) -> Result<(), Fail> {
    texts_fail(
        &rt,
        rt.alloc(),
        &[
            (
                r#"{"a": "\N"}"#,
                r#"1:8: "\N" is not an escape; a backslash is written \\"#,
            ),
            (
                r#"["C:\\data", "\"\é"]"#,
                r#"1:17: "\é" is not an escape; a backslash is written \\"#,
            ),
            (
                "[\"\\\t\"]",
                r#"1:3: "\" is not an escape; a backslash is written \\"#,
            ),
            (
                r#"{"\u00e9\u12x4": 1}"#,
                r#"1:9: "\u" needs four hexadecimal digits"#,
            ),
            (
                "{\n \"a\": \"é\\ud800\"}",
                r#"2:10: "\ud800" is half of a surrogate pair"#,
            ),
            (
                r#"["\ud83d\ude00\ude00"]"#,
                r#"1:15: "\ude00" is half of a surrogate pair"#,
            ),
            (
                r#"["\ud83dA\ude00"]"#,
                r#"1:3: "\ud83d" is half of a surrogate pair"#,
            ),
            (
                "{\"a\": \"b\tc\"}",
                r"1:9: a string has the control character U+0009; it is written \u0009",
            ),
            (
                "[\n\"b\u{1f}\"]",
                r"2:3: a string has the control character U+001F; it is written \u001f",
            ),
            (
                "{\"a\": \"b\r\nc\"}",
                r"1:9: the line ends in a string; close its quote, or write the line break as \n",
            ),
        ],
    )
}

// A plan of one source with the columns `id`, a whole number, `t`, a text, and `b`, a truth value, and this step.
fn plan_of_step(alloc: Global, version: u8, step: &str) -> Result<String, Fail> {
    let columns = r#"[["id","int"],["t","text"],["b","bool"]]"#;
    Ok(format!(in alloc;
        "{{\"version\":{version},\"sources\":[{{\"files\":1,\"columns\":{columns}}}],\"steps\":[{step}]}}"
    )?)
}

// Each step has the wrong shape, for this reason.
fn steps_fail<R: Abort + Threads + Wait + Sync>(
    rt: &R,
    alloc: Global,
    version: u8,
    rows: &[Said],
) -> Result<(), Fail> {
    for (step, reason) in rows {
        let plan = plan_of_step(alloc, version, *step)?;
        let fault = format!(in alloc; "plan: wrong shape\n  plan: steps[0]{reason}")?;
        let line = "--plan plan --details 0";
        fails_by(rt, alloc, line, plan.as_str(), &[], "", 3, fault.as_str())?;
    }
    Ok(())
}

#[test]
fn steps_of_the_wrong_shape(rt: HostRuntime) -> Result<(), Fail> {
    steps_fail(
        &rt,
        rt.alloc(),
        2,
        &[
            (
                r#"{"group_by":{"keys":["id"],"aggs":[["m","mean","id"]]}}"#,
                ".group_by.aggs[0][1]: \"mean\" is not one of len, count, sum, min, max, first, last, n_unique",
            ),
            (
                r#"{"group_by":{"keys":["id"],"aggs":[["n","len"],["m","sum"]]}}"#,
                ".group_by.aggs[1][1]: \"sum\" needs a column: [NAME, FUNCTION, COLUMN]",
            ),
            (
                r#"{"select":["id"]}"#,
                ".select[0]: \"id\" is not an array; an output is [NAME, EXPRESSION]",
            ),
            (
                r#"{"with_columns":{"double":["add",{"col":"id"},{"col":"id"}]}}"#,
                ".with_columns: {..} is not an array of outputs, each [NAME, EXPRESSION]",
            ),
            (
                r#"{"group_by":{"keys":"id","aggs":[["n","len"]]}}"#,
                ".group_by.keys: \"id\" is not an array of strings",
            ),
            (
                r#"{"group_by":{"keys":["id"],"agg":[]}}"#,
                ".group_by: \"agg\" is not a member; there are \"keys\", \"aggs\"",
            ),
            (
                r#"{"join":{"source":0,"how":"left"}}"#,
                ".join: \"on\" is missing",
            ),
            (
                r#"{"join":{"source":0,"on":["id"],"how":"outer"}}"#,
                ".join.how: \"outer\" is not one of inner, left, semi, anti",
            ),
            (
                r#"{"rolling_sum":{"column":"id","window":12.5,"name":"r"}}"#,
                ".rolling_sum.window: 12.5 is not a whole number of 64 bits",
            ),
            (
                r#"{"filter":["eq",{"col":"id"},null]}"#,
                ".filter[2]: null is not an expression; a null has a kind: {\"null\": KIND}",
            ),
            (
                r#"{"filter":["and",true,["not",["gt",{"col":"id"},0.5]]]}"#,
                ".filter[2][1][2]: 0.5 is not a whole number of 64 bits",
            ),
            (
                r#"{"filter":["xor",true,true]}"#,
                ".filter[0]: \"xor\" is not one of add, sub, mul, floordiv, mod, eq, ne, lt, le, gt, ge, eq_missing, and, or, fill_null",
            ),
            (
                r#"{"with_columns":[["a",1],["b",1,2]]}"#,
                ".with_columns[1]: [..] has 3 items; an output is [NAME, EXPRESSION]",
            ),
        ],
    )
}

#[test]
fn forms_of_version_2_in_version_1(rt: HostRuntime) -> Result<(), Fail> {
    steps_fail(
        &rt,
        rt.alloc(),
        1,
        &[
            (
                r#"{"join":{"source":0,"on":["id"],"how":"semi"}}"#,
                ".join.how: \"semi\" needs version 2",
            ),
            (
                r#"{"join":{"source":0,"on":["id"],"how":"left","nulls_equal":true}}"#,
                ".join: \"nulls_equal\" needs version 2",
            ),
        ],
    )
}

#[test]
fn joins_that_the_check_refuses(rt: HostRuntime) -> Result<(), Fail> {
    let alloc = rt.alloc();
    let side =
        r#"{"files":1,"columns":[["id","int"],["t","int"],["u","text"],["u_right","text"]]}"#;
    let main = r#"{"files":1,"columns":[["id","int"],["t","text"],["u","text"]]}"#;
    let rows = [
        (
            r#"{"source":1,"on":["id"],"how":"left"}"#,
            "no such source\n  1; only source 0 can be joined",
        ),
        (
            r#"{"source":0,"on":["u_right"],"how":"left"}"#,
            "no such column\n  \"u_right\" is not on the left; there are \"id\", \"t\", \"u\"",
        ),
        (
            r#"{"source":0,"on":["t"],"how":"left"}"#,
            "wrong kind\n  \"t\" is text on the left, int on the right",
        ),
        (
            r#"{"source":0,"on":["id"],"how":"left"}"#,
            "double name\n  \"u_right\"",
        ),
        (
            r#"{"source":0,"on":[],"how":"left"}"#,
            "no column\n  on is empty",
        ),
    ];
    for (join, said) in rows {
        let plan = format!(in alloc;
            "{{\"version\":1,\"sources\":[{side},{main}],\"steps\":[{{\"join\":{join}}}]}}"
        )?;
        let fault = format!(in alloc; "plan: step 0: {said}")?;
        let line = "--plan plan --details 0 1";
        fails_by(&rt, alloc, line, plan.as_str(), &[], "", 3, fault.as_str())?;
    }
    Ok(())
}

#[test]
fn a_source_that_the_check_refuses(rt: HostRuntime) -> Result<(), Fail> {
    let alloc = rt.alloc();
    let rows = [
        ("[]", "no column\n  source 0 has no columns"),
        (
            r#"[["v","int"],["w","int"],["v","text"]]"#,
            "double name\n  \"v\"",
        ),
    ];
    for (columns, said) in rows {
        let plan = format!(in alloc;
            "{{\"version\":1,\"sources\":[{{\"files\":1,\"columns\":{columns}}}],\"steps\":[]}}"
        )?;
        let fault = format!(in alloc; "plan: source 0: {said}")?;
        let line = "--plan plan --details 0";
        fails_by(&rt, alloc, line, plan.as_str(), &[], "", 3, fault.as_str())?;
    }
    Ok(())
}

#[test]
fn a_draft_of_a_missing_file(rt: HostRuntime) -> Result<(), Fail> {
    let line = "--draft --details nowhere";
    let fault = "read failed: file 0\n  nowhere: entity not found";
    fails_by(&rt, rt.alloc(), line, "", &[], "", 5, fault)
}

#[test]
fn steps_that_the_check_refuses(rt: HostRuntime) -> Result<(), Fail> {
    let alloc = rt.alloc();
    let rows = [
        (
            r#"{"filter":["eq",{"col":"idd"},1]}"#,
            "no such column\n  \"idd\"; there are \"id\", \"t\", \"b\"",
        ),
        (
            r#"{"filter":["eq",{"col":"id"},{"col":"t"}]}"#,
            "wrong kind\n  eq: int and text",
        ),
        (
            r#"{"filter":["and",["eq",{"col":"id"},1],["not",{"col":"id"}]]}"#,
            "wrong kind\n  not: int",
        ),
        (
            r#"{"filter":{"col":"id"}}"#,
            "not a truth value\n  the condition is int",
        ),
        (
            r#"{"filter":"b"}"#,
            "not a truth value\n  the condition is text; a column is {\"col\": \"b\"}",
        ),
        (
            r#"{"filter":["gt","id",1]}"#,
            "wrong kind\n  gt: text and int; a column is {\"col\": \"id\"}",
        ),
        (
            r#"{"filter":["gt",{"col":"id"},"2024-02-01"]}"#,
            "wrong kind\n  gt: int and text; as an int, this date is 20240201",
        ),
        (
            r#"{"filter":["eq",{"col":"id"},"north"]}"#,
            "wrong kind\n  eq: int and text",
        ),
        (
            r#"{"with_columns":[["w",["not","b"]]]}"#,
            "wrong kind\n  \"w\": not: text; a column is {\"col\": \"b\"}",
        ),
        (
            r#"{"select":[["v",1],["w",2],["v",2]]}"#,
            "double name\n  \"v\"",
        ),
        (r#"{"select":[]}"#, "no column\n  select has no outputs"),
        (
            r#"{"join":{"source":0,"on":["id"],"how":"left"}}"#,
            "no such source\n  0; there is no source before the last",
        ),
        (
            r#"{"group_by":{"keys":["t"],"aggs":[["n","len"],["s","sum","t"]]}}"#,
            "wrong kind\n  \"s\": sum: \"t\" is text; give it the kind \"int\"",
        ),
        (
            r#"{"group_by":{"keys":["t"],"aggs":[["s","sum","b"]]}}"#,
            "wrong kind\n  \"s\": sum: \"b\" is bool",
        ),
        (
            r#"{"rolling_sum":{"column":"t","window":2,"name":"r"}}"#,
            "wrong kind\n  \"t\" is text; give it the kind \"int\"",
        ),
        (
            r#"{"with_columns":[["w",["mul",{"col":"t"},100]]]}"#,
            "wrong kind\n  \"w\": mul: text and int; give \"t\" the kind \"int\"",
        ),
        (
            r#"{"filter":["gt",["neg",{"col":"t"}],0]}"#,
            "wrong kind\n  neg: text; give \"t\" the kind \"int\"",
        ),
        (
            r#"{"filter":["gt",["add","id",{"col":"t"}],0]}"#,
            "wrong kind\n  add: text and text; a column is {\"col\": \"id\"}",
        ),
        (
            r#"{"with_columns":[["v",1],["w",["not",{"col":"id"}]]]}"#,
            "wrong kind\n  \"w\": not: int",
        ),
        (
            r#"{"group_by":{"keys":[],"aggs":[["s","sum","v"]]}}"#,
            "no column\n  keys is empty",
        ),
        (
            r#"{"rolling_sum":{"column":"id","window":0,"name":"r"}}"#,
            "window out of range\n  0 is not from 1 to 65536",
        ),
        (
            r#"{"rolling_sum":{"column":"id","window":3,"min_samples":5,"name":"r"}}"#,
            "min_samples out of range\n  5 is not from 1 to the window, 3",
        ),
    ];
    for (step, said) in rows {
        let plan = plan_of_step(alloc, 1, step)?;
        let fault = format!(in alloc; "plan: step 0: {said}")?;
        let line = "--plan plan --details 0";
        fails_by(&rt, alloc, line, plan.as_str(), &[], "", 3, fault.as_str())?;
    }
    Ok(())
}
