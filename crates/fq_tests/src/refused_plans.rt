//! Plans that the check refuses, and where.
use crate::cases::{fails, hold};
use std::test::Fail;

#[test]
fn sources(rt: HostRuntime) -> Result<(), Fail> {
    hold(
        &rt,
        rt.alloc(),
        r#"
a source without a column
{"version":1,"sources":[{"files":1,"columns":[]}],"steps":[]}
3 plan: source 0: no column

a source with two columns of one name
{"version":1,"sources":[{"files":1,"columns":[["v","int"],["v","int"]]}],"steps":[]}
3 plan: source 0: double name

a source is judged before the steps
{"version":1,"sources":[{"files":1,"columns":[]}],"steps":[{"filter":["gt",{"col":"v"},10]}]}
3 plan: source 0: no column

a source of sixty-five columns
{"version":1,"sources":[{"files":1,"columns":[["c0","int"],["c1","int"],["c2","int"],["c3","int"],["c4","int"],["c5","int"],["c6","int"],["c7","int"],["c8","int"],["c9","int"],["c10","int"],["c11","int"],["c12","int"],["c13","int"],["c14","int"],["c15","int"],["c16","int"],["c17","int"],["c18","int"],["c19","int"],["c20","int"],["c21","int"],["c22","int"],["c23","int"],["c24","int"],["c25","int"],["c26","int"],["c27","int"],["c28","int"],["c29","int"],["c30","int"],["c31","int"],["c32","int"],["c33","int"],["c34","int"],["c35","int"],["c36","int"],["c37","int"],["c38","int"],["c39","int"],["c40","int"],["c41","int"],["c42","int"],["c43","int"],["c44","int"],["c45","int"],["c46","int"],["c47","int"],["c48","int"],["c49","int"],["c50","int"],["c51","int"],["c52","int"],["c53","int"],["c54","int"],["c55","int"],["c56","int"],["c57","int"],["c58","int"],["c59","int"],["c60","int"],["c61","int"],["c62","int"],["c63","int"],["c64","int"]]}],"steps":[]}
3 plan: source 0: too many columns

the first source is judged first
{"version":1,"sources":[{"files":1,"columns":[["a","int"],["a","text"]]},{"files":1,"columns":[]}],"steps":[{"select":[]}]}
3 plan: source 0: double name

too many columns, one of them twice
{"version":1,"sources":[{"files":1,"columns":[["id","int"],["v","int"]]},{"files":1,"columns":[["c0","int"],["c1","int"],["c2","int"],["c3","int"],["c4","int"],["c5","int"],["c6","int"],["c7","int"],["c8","int"],["c9","int"],["c10","int"],["c11","int"],["c12","int"],["c13","int"],["c14","int"],["c15","int"],["c16","int"],["c17","int"],["c18","int"],["c19","int"],["c20","int"],["c21","int"],["c22","int"],["c23","int"],["c24","int"],["c25","int"],["c26","int"],["c27","int"],["c28","int"],["c29","int"],["c30","int"],["c31","int"],["c32","int"],["c33","int"],["c34","int"],["c35","int"],["c36","int"],["c37","int"],["c38","int"],["c39","int"],["c40","int"],["c41","int"],["c42","int"],["c43","int"],["c44","int"],["c45","int"],["c46","int"],["c47","int"],["c48","int"],["c49","int"],["c50","int"],["c51","int"],["c52","int"],["c53","int"],["c54","int"],["c55","int"],["c56","int"],["c57","int"],["c58","int"],["c59","int"],["c60","int"],["c61","int"],["c62","int"],["c63","int"],["c64","int"],["c0","int"]]}],"steps":[]}
3 plan: source 1: too many columns

the second source is judged before the steps
{"version":1,"sources":[{"files":1,"columns":[["id","int"],["v","int"]]},{"files":1,"columns":[["a","int"],["a","text"]]}],"steps":[{"select":[]}]}
3 plan: source 1: double name
"#,
    )
}

#[test]
fn filters(rt: HostRuntime) -> Result<(), Fail> {
    hold(
        &rt,
        rt.alloc(),
        r#"
a filter of a column that is not there
{"version":1,"sources":[{"files":1,"columns":[["v","int"]]}],"steps":[{"filter":["gt",{"col":"w"},1]}]}
3 plan: step 0: no such column

a number compared with a text
{"version":1,"sources":[{"files":1,"columns":[["v","int"]]}],"steps":[{"filter":["gt",{"col":"v"},"x"]}]}
3 plan: step 0: wrong kind

a filter by a number
{"version":1,"sources":[{"files":1,"columns":[["v","int"]]}],"steps":[{"filter":{"col":"v"}}]}
3 plan: step 0: not a truth value

the left operand is judged first
{"version":1,"sources":[{"files":1,"columns":[["k","int"],["t","text"],["u","int"]]},{"files":1,"columns":[["k","int"],["v","int"],["t","bool"]]}],"steps":[{"filter":["add",{"col":"w"},{"col":"t"}]}]}
3 plan: step 0: no such column

an operand's kind is judged before the filter's
{"version":1,"sources":[{"files":1,"columns":[["k","int"],["t","text"],["u","int"]]},{"files":1,"columns":[["k","int"],["v","int"],["t","bool"]]}],"steps":[{"filter":["add",{"col":"v"},{"col":"t"}]}]}
3 plan: step 0: wrong kind

a filter by a sum
{"version":1,"sources":[{"files":1,"columns":[["k","int"],["t","text"],["u","int"]]},{"files":1,"columns":[["k","int"],["v","int"],["t","bool"]]}],"steps":[{"filter":["add",{"col":"v"},1]}]}
3 plan: step 0: not a truth value
"#,
    )
}

#[test]
fn past_sixty_four_columns(rt: HostRuntime) -> Result<(), Fail> {
    hold(
        &rt,
        rt.alloc(),
        r#"
`with_columns`: past 64 columns before names
{"version":1,"sources":[{"files":1,"columns":[["c0","int"],["d","int"],["c1","int"],["c1_right","int"]]},{"files":1,"columns":[["c0","int"],["c1","int"],["c2","int"],["c3","int"],["c4","int"],["c5","int"],["c6","int"],["c7","int"],["c8","int"],["c9","int"],["c10","int"],["c11","int"],["c12","int"],["c13","int"],["c14","int"],["c15","int"],["c16","int"],["c17","int"],["c18","int"],["c19","int"],["c20","int"],["c21","int"],["c22","int"],["c23","int"],["c24","int"],["c25","int"],["c26","int"],["c27","int"],["c28","int"],["c29","int"],["c30","int"],["c31","int"],["c32","int"],["c33","int"],["c34","int"],["c35","int"],["c36","int"],["c37","int"],["c38","int"],["c39","int"],["c40","int"],["c41","int"],["c42","int"],["c43","int"],["c44","int"],["c45","int"],["c46","int"],["c47","int"],["c48","int"],["c49","int"],["c50","int"],["c51","int"],["c52","int"],["c53","int"],["c54","int"],["c55","int"],["c56","int"],["c57","int"],["c58","int"],["c59","int"],["c60","int"],["c61","int"],["c62","int"],["c63","int"]]}],"steps":[{"with_columns":[["p",1],["p",2]]}]}
3 plan: step 0: too many columns

`select`: past 64 columns before names
{"version":1,"sources":[{"files":1,"columns":[["c0","int"],["d","int"],["c1","int"],["c1_right","int"]]},{"files":1,"columns":[["c0","int"],["c1","int"],["c2","int"],["c3","int"],["c4","int"],["c5","int"],["c6","int"],["c7","int"],["c8","int"],["c9","int"],["c10","int"],["c11","int"],["c12","int"],["c13","int"],["c14","int"],["c15","int"],["c16","int"],["c17","int"],["c18","int"],["c19","int"],["c20","int"],["c21","int"],["c22","int"],["c23","int"],["c24","int"],["c25","int"],["c26","int"],["c27","int"],["c28","int"],["c29","int"],["c30","int"],["c31","int"],["c32","int"],["c33","int"],["c34","int"],["c35","int"],["c36","int"],["c37","int"],["c38","int"],["c39","int"],["c40","int"],["c41","int"],["c42","int"],["c43","int"],["c44","int"],["c45","int"],["c46","int"],["c47","int"],["c48","int"],["c49","int"],["c50","int"],["c51","int"],["c52","int"],["c53","int"],["c54","int"],["c55","int"],["c56","int"],["c57","int"],["c58","int"],["c59","int"],["c60","int"],["c61","int"],["c62","int"],["c63","int"]]}],"steps":[{"select":[["p",1],["p",1],["p",1],["p",1],["p",1],["p",1],["p",1],["p",1],["p",1],["p",1],["p",1],["p",1],["p",1],["p",1],["p",1],["p",1],["p",1],["p",1],["p",1],["p",1],["p",1],["p",1],["p",1],["p",1],["p",1],["p",1],["p",1],["p",1],["p",1],["p",1],["p",1],["p",1],["p",1],["p",1],["p",1],["p",1],["p",1],["p",1],["p",1],["p",1],["p",1],["p",1],["p",1],["p",1],["p",1],["p",1],["p",1],["p",1],["p",1],["p",1],["p",1],["p",1],["p",1],["p",1],["p",1],["p",1],["p",1],["p",1],["p",1],["p",1],["p",1],["p",1],["p",1],["p",1],["p",1]]}]}
3 plan: step 0: too many columns

`join`: past 64 columns before names
{"version":1,"sources":[{"files":1,"columns":[["c0","int"],["d","int"],["c1","int"],["c1_right","int"]]},{"files":1,"columns":[["c0","int"],["c1","int"],["c2","int"],["c3","int"],["c4","int"],["c5","int"],["c6","int"],["c7","int"],["c8","int"],["c9","int"],["c10","int"],["c11","int"],["c12","int"],["c13","int"],["c14","int"],["c15","int"],["c16","int"],["c17","int"],["c18","int"],["c19","int"],["c20","int"],["c21","int"],["c22","int"],["c23","int"],["c24","int"],["c25","int"],["c26","int"],["c27","int"],["c28","int"],["c29","int"],["c30","int"],["c31","int"],["c32","int"],["c33","int"],["c34","int"],["c35","int"],["c36","int"],["c37","int"],["c38","int"],["c39","int"],["c40","int"],["c41","int"],["c42","int"],["c43","int"],["c44","int"],["c45","int"],["c46","int"],["c47","int"],["c48","int"],["c49","int"],["c50","int"],["c51","int"],["c52","int"],["c53","int"],["c54","int"],["c55","int"],["c56","int"],["c57","int"],["c58","int"],["c59","int"],["c60","int"],["c61","int"],["c62","int"],["c63","int"]]}],"steps":[{"join":{"source":0,"on":["c0","c0"],"how":"inner"}}]}
3 plan: step 0: too many columns

`group_by`: past 64 columns before names
{"version":1,"sources":[{"files":1,"columns":[["c0","int"],["d","int"],["c1","int"],["c1_right","int"]]},{"files":1,"columns":[["c0","int"],["c1","int"],["c2","int"],["c3","int"],["c4","int"],["c5","int"],["c6","int"],["c7","int"],["c8","int"],["c9","int"],["c10","int"],["c11","int"],["c12","int"],["c13","int"],["c14","int"],["c15","int"],["c16","int"],["c17","int"],["c18","int"],["c19","int"],["c20","int"],["c21","int"],["c22","int"],["c23","int"],["c24","int"],["c25","int"],["c26","int"],["c27","int"],["c28","int"],["c29","int"],["c30","int"],["c31","int"],["c32","int"],["c33","int"],["c34","int"],["c35","int"],["c36","int"],["c37","int"],["c38","int"],["c39","int"],["c40","int"],["c41","int"],["c42","int"],["c43","int"],["c44","int"],["c45","int"],["c46","int"],["c47","int"],["c48","int"],["c49","int"],["c50","int"],["c51","int"],["c52","int"],["c53","int"],["c54","int"],["c55","int"],["c56","int"],["c57","int"],["c58","int"],["c59","int"],["c60","int"],["c61","int"],["c62","int"],["c63","int"]]}],"steps":[{"group_by":{"keys":["c0"],"aggs":[["n","len"],["n","len"],["n","len"],["n","len"],["n","len"],["n","len"],["n","len"],["n","len"],["n","len"],["n","len"],["n","len"],["n","len"],["n","len"],["n","len"],["n","len"],["n","len"],["n","len"],["n","len"],["n","len"],["n","len"],["n","len"],["n","len"],["n","len"],["n","len"],["n","len"],["n","len"],["n","len"],["n","len"],["n","len"],["n","len"],["n","len"],["n","len"],["n","len"],["n","len"],["n","len"],["n","len"],["n","len"],["n","len"],["n","len"],["n","len"],["n","len"],["n","len"],["n","len"],["n","len"],["n","len"],["n","len"],["n","len"],["n","len"],["n","len"],["n","len"],["n","len"],["n","len"],["n","len"],["n","len"],["n","len"],["n","len"],["n","len"],["n","len"],["n","len"],["n","len"],["n","len"],["n","len"],["n","len"],["n","len"],["n","len"]]}}]}
3 plan: step 0: too many columns

`rolling_sum`: past 64 columns before names
{"version":1,"sources":[{"files":1,"columns":[["c0","int"],["d","int"],["c1","int"],["c1_right","int"]]},{"files":1,"columns":[["c0","int"],["c1","int"],["c2","int"],["c3","int"],["c4","int"],["c5","int"],["c6","int"],["c7","int"],["c8","int"],["c9","int"],["c10","int"],["c11","int"],["c12","int"],["c13","int"],["c14","int"],["c15","int"],["c16","int"],["c17","int"],["c18","int"],["c19","int"],["c20","int"],["c21","int"],["c22","int"],["c23","int"],["c24","int"],["c25","int"],["c26","int"],["c27","int"],["c28","int"],["c29","int"],["c30","int"],["c31","int"],["c32","int"],["c33","int"],["c34","int"],["c35","int"],["c36","int"],["c37","int"],["c38","int"],["c39","int"],["c40","int"],["c41","int"],["c42","int"],["c43","int"],["c44","int"],["c45","int"],["c46","int"],["c47","int"],["c48","int"],["c49","int"],["c50","int"],["c51","int"],["c52","int"],["c53","int"],["c54","int"],["c55","int"],["c56","int"],["c57","int"],["c58","int"],["c59","int"],["c60","int"],["c61","int"],["c62","int"],["c63","int"]]}],"steps":[{"rolling_sum":{"column":"c0","window":1,"name":"r"}}]}
3 plan: step 0: too many columns

a column past the sixty-fourth
{"version":1,"sources":[{"files":1,"columns":[["c0","int"],["c1","int"],["c2","int"],["c3","int"],["c4","int"],["c5","int"],["c6","int"],["c7","int"],["c8","int"],["c9","int"],["c10","int"],["c11","int"],["c12","int"],["c13","int"],["c14","int"],["c15","int"],["c16","int"],["c17","int"],["c18","int"],["c19","int"],["c20","int"],["c21","int"],["c22","int"],["c23","int"],["c24","int"],["c25","int"],["c26","int"],["c27","int"],["c28","int"],["c29","int"],["c30","int"],["c31","int"],["c32","int"],["c33","int"],["c34","int"],["c35","int"],["c36","int"],["c37","int"],["c38","int"],["c39","int"],["c40","int"],["c41","int"],["c42","int"],["c43","int"],["c44","int"],["c45","int"],["c46","int"],["c47","int"],["c48","int"],["c49","int"],["c50","int"],["c51","int"],["c52","int"],["c53","int"],["c54","int"],["c55","int"],["c56","int"],["c57","int"],["c58","int"],["c59","int"],["c60","int"],["c61","int"],["c62","int"],["c63","int"]]}],"steps":[{"with_columns":[["p",1]]}]}
3 plan: step 0: too many columns

the sixty-fourth column in its place
{"version":1,"sources":[{"files":1,"columns":[["c0","int"],["c1","int"],["c2","int"],["c3","int"],["c4","int"],["c5","int"],["c6","int"],["c7","int"],["c8","int"],["c9","int"],["c10","int"],["c11","int"],["c12","int"],["c13","int"],["c14","int"],["c15","int"],["c16","int"],["c17","int"],["c18","int"],["c19","int"],["c20","int"],["c21","int"],["c22","int"],["c23","int"],["c24","int"],["c25","int"],["c26","int"],["c27","int"],["c28","int"],["c29","int"],["c30","int"],["c31","int"],["c32","int"],["c33","int"],["c34","int"],["c35","int"],["c36","int"],["c37","int"],["c38","int"],["c39","int"],["c40","int"],["c41","int"],["c42","int"],["c43","int"],["c44","int"],["c45","int"],["c46","int"],["c47","int"],["c48","int"],["c49","int"],["c50","int"],["c51","int"],["c52","int"],["c53","int"],["c54","int"],["c55","int"],["c56","int"],["c57","int"],["c58","int"],["c59","int"],["c60","int"],["c61","int"],["c62","int"],["c63","int"]]}],"steps":[{"with_columns":[["c63",1]]}]}
< c0,c1,c2,c3,c4,c5,c6,c7,c8,c9,c10,c11,c12,c13,c14,c15,c16,c17,c18,c19,c20,c21,c22,c23,c24,c25,c26,c27,c28,c29,c30,c31,c32,c33,c34,c35,c36,c37,c38,c39,c40,c41,c42,c43,c44,c45,c46,c47,c48,c49,c50,c51,c52,c53,c54,c55,c56,c57,c58,c59,c60,c61,c62,c63\n0,0,0,0,0,0,0,0,0,0,0,0,0,0,0,0,0,0,0,0,0,0,0,0,0,0,0,0,0,0,0,0,0,0,0,0,0,0,0,0,0,0,0,0,0,0,0,0,0,0,0,0,0,0,0,0,0,0,0,0,0,0,0,0\n
> c0,c1,c2,c3,c4,c5,c6,c7,c8,c9,c10,c11,c12,c13,c14,c15,c16,c17,c18,c19,c20,c21,c22,c23,c24,c25,c26,c27,c28,c29,c30,c31,c32,c33,c34,c35,c36,c37,c38,c39,c40,c41,c42,c43,c44,c45,c46,c47,c48,c49,c50,c51,c52,c53,c54,c55,c56,c57,c58,c59,c60,c61,c62,c63\n0,0,0,0,0,0,0,0,0,0,0,0,0,0,0,0,0,0,0,0,0,0,0,0,0,0,0,0,0,0,0,0,0,0,0,0,0,0,0,0,0,0,0,0,0,0,0,0,0,0,0,0,0,0,0,0,0,0,0,0,0,0,0,1\n

sixty-four columns, and steps
{"version":1,"sources":[{"files":1,"columns":[["c0","int"],["c1","int"],["c2","int"],["c3","int"],["c4","int"],["c5","int"],["c6","int"],["c7","int"],["c8","int"],["c9","int"],["c10","int"],["c11","int"],["c12","int"],["c13","int"],["c14","int"],["c15","int"],["c16","int"],["c17","int"],["c18","int"],["c19","int"],["c20","int"],["c21","int"],["c22","int"],["c23","int"],["c24","int"],["c25","int"],["c26","int"],["c27","int"],["c28","int"],["c29","int"],["c30","int"],["c31","int"],["c32","int"],["c33","int"],["c34","int"],["c35","int"],["c36","int"],["c37","int"],["c38","int"],["c39","int"],["c40","int"],["c41","int"],["c42","int"],["c43","int"],["c44","int"],["c45","int"],["c46","int"],["c47","int"],["c48","int"],["c49","int"],["c50","int"],["c51","int"],["c52","int"],["c53","int"],["c54","int"],["c55","int"],["c56","int"],["c57","int"],["c58","int"],["c59","int"],["c60","int"],["c61","int"],["c62","int"],["c63","int"]]}],"steps":[{"filter":["is_not_null",{"col":"c0"}]},{"filter":["is_not_null",{"col":"c1"}]},{"filter":["is_not_null",{"col":"c2"}]},{"filter":["is_not_null",{"col":"c3"}]},{"filter":["is_not_null",{"col":"c4"}]},{"filter":["is_not_null",{"col":"c5"}]},{"filter":["is_not_null",{"col":"c6"}]},{"filter":["is_not_null",{"col":"c7"}]},{"filter":["is_not_null",{"col":"c8"}]},{"filter":["is_not_null",{"col":"c9"}]},{"filter":["is_not_null",{"col":"c10"}]},{"filter":["is_not_null",{"col":"c11"}]},{"filter":["is_not_null",{"col":"c12"}]},{"filter":["is_not_null",{"col":"c13"}]},{"filter":["is_not_null",{"col":"c14"}]},{"filter":["is_not_null",{"col":"c15"}]},{"filter":["is_not_null",{"col":"c16"}]},{"filter":["is_not_null",{"col":"c17"}]},{"filter":["is_not_null",{"col":"c18"}]},{"filter":["is_not_null",{"col":"c19"}]},{"filter":["is_not_null",{"col":"c20"}]},{"filter":["is_not_null",{"col":"c21"}]},{"filter":["is_not_null",{"col":"c22"}]},{"filter":["is_not_null",{"col":"c23"}]},{"filter":["is_not_null",{"col":"c24"}]},{"filter":["is_not_null",{"col":"c25"}]},{"filter":["is_not_null",{"col":"c26"}]},{"filter":["is_not_null",{"col":"c27"}]},{"filter":["is_not_null",{"col":"c28"}]},{"filter":["is_not_null",{"col":"c29"}]},{"filter":["is_not_null",{"col":"c30"}]},{"filter":["is_not_null",{"col":"c31"}]},{"filter":["is_not_null",{"col":"c32"}]},{"filter":["is_not_null",{"col":"c33"}]},{"filter":["is_not_null",{"col":"c34"}]},{"filter":["is_not_null",{"col":"c35"}]},{"filter":["is_not_null",{"col":"c36"}]},{"filter":["is_not_null",{"col":"c37"}]},{"filter":["is_not_null",{"col":"c38"}]},{"filter":["is_not_null",{"col":"c39"}]},{"filter":["is_not_null",{"col":"c40"}]},{"filter":["is_not_null",{"col":"c41"}]},{"filter":["is_not_null",{"col":"c42"}]},{"filter":["is_not_null",{"col":"c43"}]},{"filter":["is_not_null",{"col":"c44"}]},{"filter":["is_not_null",{"col":"c45"}]},{"filter":["is_not_null",{"col":"c46"}]},{"filter":["is_not_null",{"col":"c47"}]},{"filter":["is_not_null",{"col":"c48"}]},{"filter":["is_not_null",{"col":"c49"}]},{"filter":["is_not_null",{"col":"c50"}]},{"filter":["is_not_null",{"col":"c51"}]},{"filter":["is_not_null",{"col":"c52"}]},{"filter":["is_not_null",{"col":"c53"}]},{"filter":["is_not_null",{"col":"c54"}]},{"filter":["is_not_null",{"col":"c55"}]},{"filter":["is_not_null",{"col":"c56"}]},{"filter":["is_not_null",{"col":"c57"}]},{"filter":["is_not_null",{"col":"c58"}]},{"filter":["is_not_null",{"col":"c59"}]},{"filter":["is_not_null",{"col":"c60"}]},{"filter":["is_not_null",{"col":"c61"}]},{"filter":["is_not_null",{"col":"c62"}]},{"filter":["is_not_null",{"col":"c63"}]}]}
< c0,c1,c2,c3,c4,c5,c6,c7,c8,c9,c10,c11,c12,c13,c14,c15,c16,c17,c18,c19,c20,c21,c22,c23,c24,c25,c26,c27,c28,c29,c30,c31,c32,c33,c34,c35,c36,c37,c38,c39,c40,c41,c42,c43,c44,c45,c46,c47,c48,c49,c50,c51,c52,c53,c54,c55,c56,c57,c58,c59,c60,c61,c62,c63\n0,1,2,3,4,5,6,7,8,9,10,11,12,13,14,15,16,17,18,19,20,21,22,23,24,25,26,27,28,29,30,31,32,33,34,35,36,37,38,39,40,41,42,43,44,45,46,47,48,49,50,51,52,53,54,55,56,57,58,59,60,61,62,63\n
> c0,c1,c2,c3,c4,c5,c6,c7,c8,c9,c10,c11,c12,c13,c14,c15,c16,c17,c18,c19,c20,c21,c22,c23,c24,c25,c26,c27,c28,c29,c30,c31,c32,c33,c34,c35,c36,c37,c38,c39,c40,c41,c42,c43,c44,c45,c46,c47,c48,c49,c50,c51,c52,c53,c54,c55,c56,c57,c58,c59,c60,c61,c62,c63\n0,1,2,3,4,5,6,7,8,9,10,11,12,13,14,15,16,17,18,19,20,21,22,23,24,25,26,27,28,29,30,31,32,33,34,35,36,37,38,39,40,41,42,43,44,45,46,47,48,49,50,51,52,53,54,55,56,57,58,59,60,61,62,63\n
"#,
    )
}

#[test]
fn with_columns_and_select(rt: HostRuntime) -> Result<(), Fail> {
    hold(
        &rt,
        rt.alloc(),
        r#"
`with_columns`: the first expression is judged first
{"version":1,"sources":[{"files":1,"columns":[["k","int"],["t","text"],["u","int"]]},{"files":1,"columns":[["k","int"],["v","int"],["t","bool"]]}],"steps":[{"with_columns":[["p",["neg",{"col":"t"}]],["p",{"col":"w"}]]}]}
3 plan: step 0: wrong kind

`with_columns`: expressions are judged before names
{"version":1,"sources":[{"files":1,"columns":[["k","int"],["t","text"],["u","int"]]},{"files":1,"columns":[["k","int"],["v","int"],["t","bool"]]}],"steps":[{"with_columns":[["p",1],["p",{"col":"w"}]]}]}
3 plan: step 0: no such column

`with_columns`: a name twice
{"version":1,"sources":[{"files":1,"columns":[["k","int"],["t","text"],["u","int"]]},{"files":1,"columns":[["k","int"],["v","int"],["t","bool"]]}],"steps":[{"with_columns":[["p",1],["p",2]]}]}
3 plan: step 0: double name

`select`: no column
{"version":1,"sources":[{"files":1,"columns":[["k","int"],["t","text"],["u","int"]]},{"files":1,"columns":[["k","int"],["v","int"],["t","bool"]]}],"steps":[{"select":[]}]}
3 plan: step 0: no column

`select`: the first expression is judged first
{"version":1,"sources":[{"files":1,"columns":[["k","int"],["t","text"],["u","int"]]},{"files":1,"columns":[["k","int"],["v","int"],["t","bool"]]}],"steps":[{"select":[["p",["neg",{"col":"t"}]],["p",{"col":"w"}]]}]}
3 plan: step 0: wrong kind

`select`: expressions are judged before names
{"version":1,"sources":[{"files":1,"columns":[["k","int"],["t","text"],["u","int"]]},{"files":1,"columns":[["k","int"],["v","int"],["t","bool"]]}],"steps":[{"select":[["p",1],["p",{"col":"w"}]]}]}
3 plan: step 0: no such column

`select`: a name twice
{"version":1,"sources":[{"files":1,"columns":[["k","int"],["t","text"],["u","int"]]},{"files":1,"columns":[["k","int"],["v","int"],["t","bool"]]}],"steps":[{"select":[["p",1],["p",2]]}]}
3 plan: step 0: double name
"#,
    )
}

#[test]
fn joins(rt: HostRuntime) -> Result<(), Fail> {
    hold(
        &rt,
        rt.alloc(),
        r#"
a join without a source beside it
{"version":1,"sources":[{"files":1,"columns":[["v","int"]]}],"steps":[{"join":{"source":0,"on":["v"],"how":"inner"}}]}
3 plan: step 0: no such source

`join`: the source is judged first
{"version":1,"sources":[{"files":1,"columns":[["k","int"],["t","text"],["u","int"]]},{"files":1,"columns":[["k","int"],["v","int"],["t","bool"]]}],"steps":[{"join":{"source":1,"on":[],"how":"inner"}}]}
3 plan: step 0: no such source

`join`: a source below 0
{"version":1,"sources":[{"files":1,"columns":[["k","int"],["t","text"],["u","int"]]},{"files":1,"columns":[["k","int"],["v","int"],["t","bool"]]}],"steps":[{"join":{"source":-1,"on":["w"],"how":"left"}}]}
3 plan: step 0: no such source

`join`: no key
{"version":1,"sources":[{"files":1,"columns":[["k","int"],["t","text"],["u","int"]]},{"files":1,"columns":[["k","int"],["v","int"],["t","bool"]]}],"steps":[{"join":{"source":0,"on":[],"how":"inner"}}]}
3 plan: step 0: no column

`join`: a key that the left lacks
{"version":1,"sources":[{"files":1,"columns":[["k","int"],["t","text"],["u","int"]]},{"files":1,"columns":[["k","int"],["v","int"],["t","bool"]]}],"steps":[{"join":{"source":0,"on":["u","t"],"how":"inner"}}]}
3 plan: step 0: no such column

`join`: a key that the right lacks
{"version":1,"sources":[{"files":1,"columns":[["k","int"],["t","text"],["u","int"]]},{"files":1,"columns":[["k","int"],["v","int"],["t","bool"]]}],"steps":[{"join":{"source":0,"on":["v","t"],"how":"inner"}}]}
3 plan: step 0: no such column

`join`: a key of two kinds twice
{"version":1,"sources":[{"files":1,"columns":[["k","int"],["t","text"],["u","int"]]},{"files":1,"columns":[["k","int"],["v","int"],["t","bool"]]}],"steps":[{"join":{"source":0,"on":["t","t"],"how":"inner"}}]}
3 plan: step 0: wrong kind

`join`: a key twice
{"version":1,"sources":[{"files":1,"columns":[["k","int"],["t","text"],["u","int"]]},{"files":1,"columns":[["k","int"],["v","int"],["t","bool"]]}],"steps":[{"join":{"source":0,"on":["k","k"],"how":"inner"}}]}
3 plan: step 0: double name

a suffixed name that the left has
{"version":1,"sources":[{"files":1,"columns":[["k","int"],["v","int"]]},{"files":1,"columns":[["k","int"],["v","int"],["v_right","int"]]}],"steps":[{"join":{"source":0,"on":["k"],"how":"inner"}}]}
3 plan: step 0: double name

a suffixed name that the right has
{"version":1,"sources":[{"files":1,"columns":[["k","int"],["v","int"],["v_right","int"]]},{"files":1,"columns":[["k","int"],["v","int"]]}],"steps":[{"join":{"source":0,"on":["k"],"how":"inner"}}]}
3 plan: step 0: double name
"#,
    )
}

#[test]
fn groupings(rt: HostRuntime) -> Result<(), Fail> {
    hold(
        &rt,
        rt.alloc(),
        r#"
`group_by`: no key
{"version":1,"sources":[{"files":1,"columns":[["k","int"],["t","text"],["u","int"]]},{"files":1,"columns":[["k","int"],["v","int"],["t","bool"]]}],"steps":[{"group_by":{"keys":[],"aggs":[["n","sum","w"]]}}]}
3 plan: step 0: no column

`group_by`: keys are judged before aggregates
{"version":1,"sources":[{"files":1,"columns":[["k","int"],["t","text"],["u","int"]]},{"files":1,"columns":[["k","int"],["v","int"],["t","bool"]]}],"steps":[{"group_by":{"keys":["k","w"],"aggs":[["n","sum","t"]]}}]}
3 plan: step 0: no such column

`group_by`: the first aggregate is judged first
{"version":1,"sources":[{"files":1,"columns":[["k","int"],["t","text"],["u","int"]]},{"files":1,"columns":[["k","int"],["v","int"],["t","bool"]]}],"steps":[{"group_by":{"keys":["k"],"aggs":[["n","sum","t"],["n","min","w"]]}}]}
3 plan: step 0: wrong kind

`group_by`: aggregates are judged before names
{"version":1,"sources":[{"files":1,"columns":[["k","int"],["t","text"],["u","int"]]},{"files":1,"columns":[["k","int"],["v","int"],["t","bool"]]}],"steps":[{"group_by":{"keys":["k"],"aggs":[["k","count","w"],["n","sum","t"]]}}]}
3 plan: step 0: no such column

`group_by`: an aggregate of a key's name
{"version":1,"sources":[{"files":1,"columns":[["k","int"],["t","text"],["u","int"]]},{"files":1,"columns":[["k","int"],["v","int"],["t","bool"]]}],"steps":[{"group_by":{"keys":["k"],"aggs":[["k","sum","v"]]}}]}
3 plan: step 0: double name
"#,
    )
}

#[test]
fn rolling_sums(rt: HostRuntime) -> Result<(), Fail> {
    hold(
        &rt,
        rt.alloc(),
        r#"
a window of 0 in the second step
{"version":1,"sources":[{"files":1,"columns":[["v","int"]]}],"steps":[{"select":[["v",{"col":"v"}]]},{"rolling_sum":{"column":"v","window":0,"name":"r"}}]}
3 plan: step 1: window out of range

more samples than the window has
{"version":1,"sources":[{"files":1,"columns":[["v","int"]]}],"steps":[{"rolling_sum":{"column":"v","window":3,"min_samples":4,"name":"r"}}]}
3 plan: step 0: min_samples out of range

`rolling_sum`: the column is judged first
{"version":1,"sources":[{"files":1,"columns":[["k","int"],["t","text"],["u","int"]]},{"files":1,"columns":[["k","int"],["v","int"],["t","bool"]]}],"steps":[{"rolling_sum":{"column":"w","window":0,"name":"r"}}]}
3 plan: step 0: no such column

`rolling_sum`: the kind is judged before the window
{"version":1,"sources":[{"files":1,"columns":[["k","int"],["t","text"],["u","int"]]},{"files":1,"columns":[["k","int"],["v","int"],["t","bool"]]}],"steps":[{"rolling_sum":{"column":"t","window":0,"name":"r"}}]}
3 plan: step 0: wrong kind

`rolling_sum`: a window of 0
{"version":1,"sources":[{"files":1,"columns":[["k","int"],["t","text"],["u","int"]]},{"files":1,"columns":[["k","int"],["v","int"],["t","bool"]]}],"steps":[{"rolling_sum":{"column":"v","window":0,"name":"r"}}]}
3 plan: step 0: window out of range

`rolling_sum`: the window is judged before the samples
{"version":1,"sources":[{"files":1,"columns":[["k","int"],["t","text"],["u","int"]]},{"files":1,"columns":[["k","int"],["v","int"],["t","bool"]]}],"steps":[{"rolling_sum":{"column":"v","window":65537,"min_samples":-1,"name":"r"}}]}
3 plan: step 0: window out of range

`rolling_sum`: more samples than the window has
{"version":1,"sources":[{"files":1,"columns":[["k","int"],["t","text"],["u","int"]]},{"files":1,"columns":[["k","int"],["v","int"],["t","bool"]]}],"steps":[{"rolling_sum":{"column":"v","window":3,"min_samples":4,"name":"r"}}]}
3 plan: step 0: min_samples out of range
"#,
    )
}

#[test]
fn later_steps(rt: HostRuntime) -> Result<(), Fail> {
    hold(
        &rt,
        rt.alloc(),
        r#"
a step after `select` is judged on what it leaves
{"version":1,"sources":[{"files":1,"columns":[["k","int"],["t","text"],["u","int"]]},{"files":1,"columns":[["k","int"],["v","int"],["t","bool"]]}],"steps":[{"select":[["p",{"col":"v"}]]},{"filter":["gt",{"col":"v"},1]},{"select":[]}]}
3 plan: step 1: no such column

a step after `group_by` is judged on what it leaves
{"version":1,"sources":[{"files":1,"columns":[["k","int"],["t","text"],["u","int"]]},{"files":1,"columns":[["k","int"],["v","int"],["t","bool"]]}],"steps":[{"group_by":{"keys":["k"],"aggs":[["n","len"]]}},{"filter":["gt",{"col":"n"},1]},{"filter":{"col":"n"}}]}
3 plan: step 2: not a truth value

a step after `rolling_sum` is judged on what it leaves
{"version":1,"sources":[{"files":1,"columns":[["k","int"],["t","text"],["u","int"]]},{"files":1,"columns":[["k","int"],["v","int"],["t","bool"]]}],"steps":[{"rolling_sum":{"column":"v","window":2,"name":"t"}},{"filter":["gt",{"col":"t"},1]},{"select":[]}]}
3 plan: step 2: no column

a step after `join` is judged on what it leaves
{"version":1,"sources":[{"files":1,"columns":[["k","int"],["t","text"],["u","int"]]},{"files":1,"columns":[["k","int"],["v","int"],["t","bool"]]}],"steps":[{"join":{"source":0,"on":["k"],"how":"left"}},{"filter":["eq",{"col":"t_right"},"x"]},{"filter":{"col":"u"}}]}
3 plan: step 2: not a truth value
"#,
    )
}

#[test]
fn members_in_any_order_the_last_of_seven_steps_is_the_first_that_is_refused(
    rt: HostRuntime,
) -> Result<(), Fail> {
    fails(
        &rt,
        rt.alloc(),
        "{\n \"steps\": [\n  {\"join\": {\"how\": \"left\", \"on\": [\"k\"], \"source\": 0}},\n  {\"filter\": [\"and\", [\"is_not_null\", {\"col\": \"v\"}], [\"or\", true, [\"eq\", {\"col\": \"k\"}, \"x\"]]]},\n  {\"with_columns\": [[\"w\", [\"fill_null\", [\"neg\", {\"col\": \"v\"}], -9223372036854775808]], [\"n\", {\"null\": \"text\"}]]},\n  {\"rolling_sum\": {\"column\": \"w\", \"window\": 3, \"name\": \"r\"}},\n  {\"rolling_sum\": {\"column\": \"w\", \"window\": 3, \"min_samples\": 1, \"name\": \"s\"}},\n  {\"group_by\": {\"keys\": [\"k\"], \"aggs\": [[\"rows\", \"len\"], [\"least\", \"min\", \"v\"], [\"texts\", \"n_unique\", \"n\"]]}},\n  {\"select\": []}\n ],\n \"sources\": [{\"columns\": [[\"k\", \"text\"], [\"t\", \"bool\"]], \"files\": 4}, {\"files\": 12, \"columns\": [[\"k\", \"text\"], [\"v\", \"int\"]]}],\n \"version\": 1\n}",
        &[],
        3,
        "plan: step 6: no column",
    )
}
