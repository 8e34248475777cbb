// What the codes of refusals mean: for each what docs/FORMATS.md says of it, and of those of a program file for each reason a file that is refused, and
// the same mended. The script .ci/explained holds them to that document, and gives the files to the program.

const P1: &str = r#"`refused P1`: no TOML document: also not UTF-8, a key twice, an integer
  outside 64 bits, a float too large, arrays, tables or the parts of a key
  nested more than 80 deep

refused:
    system = [{ name = "move }]
accepted:
    system = [{ name = "move" }]

refused:
    [[system]
    name = "move"
accepted:
    [[system]]
    name = "move"

refused:
    [[system]]
    name = "a"
    name = "b"
accepted:
    [[system]]
    name = "a"

    [[system]]
    name = "b"
"#;

const P2: &str = r#"`refused P2 PLACE`: unknown or missing key, wrong type, wrong length, number
  out of range, bad name, unknown resource, kind or event kind, a block with
  both `each` and `events`

refused:
    system = [{ name = "a", qeury = ["read Health"] }]
accepted:
    system = [{ name = "a", query = ["read Health"] }]

refused:
    system = [{ query = ["read Health"] }]
accepted:
    system = [{ name = "a", query = ["read Health"] }]

refused:
    system = [{ name = "a", if = "run_once" }]
accepted:
    system = [{ name = "a", if = ["run_once"] }]

refused:
    [system]
    name = "a"
accepted:
    [[system]]
    name = "a"

refused:
    system = [{ name = "Move" }]
accepted:
    system = [{ name = "move" }]

refused:
    resources = { Totl = 1 }
accepted:
    resources = { Total = 1 }

refused:
    entity = [{ Position = [1] }]
accepted:
    entity = [{ Position = [1, 2] }]

refused:
    system = [{ name = "a", spawns = -1 }]
accepted:
    system = [{ name = "a", spawns = 1 }]
"#;

const P3: &str = r#"`refused P3 PLACE`: a query, condition or instruction text outside its grammar

refused:
    system = [{ name = "a", query = ["reed Health"] }]
accepted:
    system = [{ name = "a", query = ["read Health"] }]

refused:
    system = [{ name = "a", query = ["read Health mut Team"] }]
accepted:
    system = [{ name = "a", query = ["read Health, mut Team"] }]

refused:
    system = [{ name = "a", query = ["read Helth"] }]
accepted:
    system = [{ name = "a", query = ["read Health"] }]

refused:
    system = [{ name = "a", if = ["on_event"] }]
accepted:
    system = [{ name = "a", if = ["on_event(Hit)"] }]

refused:
    system = [{ name = "a", if = ["resource_equals(Mode)"] }]
accepted:
    system = [{ name = "a", if = ["resource_equals(Mode, 1)"] }]

refused:
    system = [{ name = "a", do = [{ code = ["inc r0"] }] }]
accepted:
    system = [{ name = "a", do = [{ code = ["add r0 1"] }] }]

refused:
    system = [{ name = "a", do = [{ code = ["set r0"] }] }]
accepted:
    system = [{ name = "a", do = [{ code = ["set r0 1"] }] }]
"#;

const P4: &str = r#"`refused P4`: longer than the limit
"#;

const B1: &str = r#"`refused B1 NAME`: a name names no set and no system, or `in` names no set

refused:
    system = [{ name = "a", before = ["b"] }]
accepted:
    system = [{ name = "a", before = ["b"] }, { name = "b" }]

refused:
    system = [{ name = "a" }, { name = "b", in = ["a"] }]
accepted:
    system = [{ name = "a" }, { name = "b", after = ["a"] }]
"#;

const B2: &str = r#"`refused B2 NAME`: a set or a system has the name of an earlier one

refused:
    system = [{ name = "a" }, { name = "a" }]
accepted:
    system = [{ name = "a" }, { name = "b" }]
"#;

const B3: &str = r#"`refused B3 NAME`: a set is in itself

refused:
    set = [{ name = "s", in = ["s"] }]
accepted:
    set = [{ name = "s" }]
"#;

const B4: &str = r#"`refused B4 NAME NAME .. NAME`: a circle of sets, each in the next, from its
  earliest declared set, which is at both ends

refused:
    set = [{ name = "s", in = ["t"] }, { name = "t", in = ["s"] }]
accepted:
    set = [{ name = "s", in = ["t"] }, { name = "t" }]
"#;

const B5: &str = r#"`refused B5 NAME`: a set or a system is ordered with itself

refused:
    system = [{ name = "a", before = ["a"] }]
accepted:
    system = [{ name = "a" }]
"#;

const B6: &str = r#"`refused B6 NAME NAME .. NAME`: a cycle of sets and systems, each step a
  declared order or from a member to a member of an order's items, from its
  earliest declared one, which is at both ends

refused:
    system = [{ name = "a", before = ["b"] }, { name = "b", before = ["a"] }]
accepted:
    system = [{ name = "a", before = ["b"] }, { name = "b" }]
"#;

const B7: &str = r#"`refused B7 NAME SET`: an order, either way, between a set or a system and a
  set that holds it, at any depth

refused:
    set = [{ name = "s" }]
    system = [
      { name = "a", in = ["s"], before = ["s"] },
      { name = "b", in = ["s"] },
    ]
accepted:
    set = [{ name = "s" }]
    system = [
      { name = "a", in = ["s"], before = ["b"] },
      { name = "b", in = ["s"] },
    ]
"#;

const B8: &str = r#"`refused B8 SET SET SYSTEM`: two ordered sets, the first one first, share a
  system; the least declared one that they share is named

refused:
    set = [{ name = "s", before = ["t"] }, { name = "t" }]
    system = [{ name = "a", in = ["s", "t"] }]
accepted:
    set = [{ name = "s", before = ["t"] }, { name = "t" }]
    system = [{ name = "a", in = ["s"] }]
"#;

const B9: &str = r#"`refused B9 SYSTEM`: two queries of the system conflict: an entity could match
  both and have a kind that one of them writes and the other reads or writes.
  Or a resource is in `res_mut` twice, or in `res` too, or an event kind in
  `writes` twice, or in `reads` too

refused:
    system = [{ name = "a", query = ["read Health", "mut Health"] }]
accepted:
    system = [{ name = "a", query = [
      "read Health, with Frozen",
      "mut Health, without Frozen",
    ] }]

refused:
    system = [{ name = "a", res = ["Total"], res_mut = ["Total"] }]
accepted:
    system = [{ name = "a", res_mut = ["Total"] }]
"#;

const B10: &str = r#"`refused B10 SYSTEM Q 1`: query Q of the system requires a kind (`read`,
  `mut`, `with`, `added`, `changed`) that it excludes (`without`)
`refused B10 SYSTEM Q 2`: query Q of the system fetches a kind twice (`read`,
  `mut`, `opt`)
`refused B10 SYSTEM Q 3`: query Q of the system has an `opt` term of a kind
  that it excludes
`refused B10 SYSTEM Q 4`: query Q of the system has more than two `or` terms,
  or one without two to four alternatives. No text has such a query, since
  that is P3; a query that a program builds may be one
`refused B10 #C Q 1`, `2`, `3`: the same of query Q of condition C, the
  queries of a condition numbered from the left

refused:
    system = [{ name = "a", query = ["read Health, without Health"] }]
accepted:
    system = [{ name = "a", query = ["read Health"] }]

refused:
    system = [{ name = "a", query = ["read Health, mut Health"] }]
accepted:
    system = [{ name = "a", query = ["mut Health"] }]

refused:
    system = [{ name = "a", query = ["opt Health, without Health"] }]
accepted:
    system = [{ name = "a", query = ["opt Health"] }]
"#;

const B11: &str = r#"`refused B11 #C`: condition C has an `any_with` query with a `mut` term

refused:
    system = [{ name = "a", if = ["any_with(mut Health)"] }]
accepted:
    system = [{ name = "a", if = ["any_with(read Health)"] }]
"#;

const B12: &str = r#"`refused B12 1`: more than 256 systems
`refused B12 2`: more than 64 sets
`refused B12 3`: more than 512 conditions
`refused B12 4`: more than 8 queries in a system
`refused B12 5`: a system with `spawns` above 1,024

refused:
    system = [{ name = "a", spawns = 1025 }]
accepted:
    system = [{ name = "a", spawns = 1024 }]
"#;

const X1: &str = r#"X1: `each` names no query of the system; a field, or `has K`, outside of a
  block with `each` or of a kind that its query doesn't fetch; a target field
  whose kind the query doesn't fetch by `mut`; `row` outside of a block with
  `each` or where its query has no `entity`

refused:
    system = [{ name = "a", query = ["read Health"], do = [
      { each = 1, code = ["set r0 Health.v"] },
    ] }]
accepted:
    system = [{ name = "a", query = ["read Health"], do = [
      { each = 0, code = ["set r0 Health.v"] },
    ] }]

refused:
    system = [{ name = "a", query = ["read Health"], do = [
      { code = ["set r0 Health.v"] },
    ] }]
accepted:
    system = [{ name = "a", query = ["read Health"], do = [
      { each = 0, code = ["set r0 Health.v"] },
    ] }]

refused:
    system = [{ name = "a", query = ["read Health"], do = [
      { each = 0, code = ["set r0 Team.v"] },
    ] }]
accepted:
    system = [{ name = "a", query = ["read Health, read Team"], do = [
      { each = 0, code = ["set r0 Team.v"] },
    ] }]

refused:
    system = [{ name = "a", query = ["read Health"], do = [
      { each = 0, code = ["set Health.v 1"] },
    ] }]
accepted:
    system = [{ name = "a", query = ["mut Health"], do = [
      { each = 0, code = ["set Health.v 1"] },
    ] }]

refused:
    system = [{ name = "a", spawns = 0, query = ["read Health"], do = [
      { each = 0, code = ["despawn row"] },
    ] }]
accepted:
    system = [{ name = "a", spawns = 0, query = ["read Health, entity"], do = [
      { each = 0, code = ["despawn row"] },
    ] }]
"#;

const X2: &str = r#"X2: `events` names a kind that isn't in `reads`; `event` outside of a block
  with `events`; a resource that is read and is in neither `res` nor
  `res_mut`; one that is written and isn't in `res_mut`; an event that is
  emitted and whose kind isn't in `writes`

refused:
    system = [{ name = "a", do = [{ events = "Hit", code = ["set r0 1"] }] }]
accepted:
    system = [{ name = "a", reads = ["Hit"], do = [
      { events = "Hit", code = ["set r0 1"] },
    ] }]

refused:
    system = [{ name = "a", reads = ["Hit"], do = [
      { code = ["set r0 event"] },
    ] }]
accepted:
    system = [{ name = "a", reads = ["Hit"], do = [
      { events = "Hit", code = ["set r0 event"] },
    ] }]

refused:
    system = [{ name = "a", do = [{ code = ["set r0 Total"] }] }]
accepted:
    system = [{ name = "a", res = ["Total"], do = [
      { code = ["set r0 Total"] },
    ] }]

refused:
    system = [{ name = "a", res = ["Total"], do = [
      { code = ["set Total 1"] },
    ] }]
accepted:
    system = [{ name = "a", res_mut = ["Total"], do = [
      { code = ["set Total 1"] },
    ] }]

refused:
    system = [{ name = "a", do = [{ code = ["emit Hit 1"] }] }]
accepted:
    system = [{ name = "a", writes = ["Hit"], do = [
      { code = ["emit Hit 1"] },
    ] }]
"#;

const X3: &str = r#"X3: a field that the kind hasn't; `insert` with another number of values than
  the kind has fields

refused:
    system = [{ name = "a", query = ["read Health"], do = [
      { each = 0, code = ["set r0 Health.x"] },
    ] }]
accepted:
    system = [{ name = "a", query = ["read Health"], do = [
      { each = 0, code = ["set r0 Health.v"] },
    ] }]

refused:
    system = [{ name = "a", spawns = 1, do = [
      { code = ["spawn g0", "insert g0 Position 1"] },
    ] }]
accepted:
    system = [{ name = "a", spawns = 1, do = [
      { code = ["spawn g0", "insert g0 Position 1 2"] },
    ] }]
"#;

const X4: &str = r#"X4: more instructions are skipped than come after this one in the block

refused:
    system = [{ name = "a", do = [{ code = ["less r0 1 2", "add r0 1"] }] }]
accepted:
    system = [{ name = "a", do = [{ code = ["less r0 1 1", "add r0 1"] }] }]
"#;

const X5: &str = r#"X5: a register over `r7`

refused:
    system = [{ name = "a", do = [{ code = ["add r8 1"] }] }]
accepted:
    system = [{ name = "a", do = [{ code = ["add r7 1"] }] }]
"#;

const X6: &str = r#"X6: a command of a system without `spawns`; `gI` with I not below `spawns`;
  `spawn` in a block with `each` or `events`, or of a slot that an earlier
  instruction of the system spawns

refused:
    system = [{ name = "a", do = [{ code = ["spawn g0"] }] }]
accepted:
    system = [{ name = "a", spawns = 1, do = [{ code = ["spawn g0"] }] }]

refused:
    system = [{ name = "a", spawns = 1, do = [{ code = ["spawn g1"] }] }]
accepted:
    system = [{ name = "a", spawns = 2, do = [{ code = ["spawn g1"] }] }]

refused:
    system = [{ name = "a", spawns = 1, query = ["read Health"], do = [
      { each = 0, code = ["spawn g0"] },
    ] }]
accepted:
    system = [{ name = "a", spawns = 1, query = ["read Health"], do = [
      { code = ["spawn g0"] },
    ] }]

refused:
    system = [{ name = "a", spawns = 2, do = [
      { code = ["spawn g0", "spawn g0"] },
    ] }]
accepted:
    system = [{ name = "a", spawns = 2, do = [
      { code = ["spawn g0", "spawn g1"] },
    ] }]
"#;

const L1: &str = r#"`refused L1 LINE`: a line outside the table, or a last line without its end
"#;

const L2: &str = r#"`refused L2 LINE`: an `R` line whose number isn't the next, or a step before
  any run
"#;

const L3: &str = r#"`refused L3`: the trace is longer than the limit, which is looked for first;
  or the record of `--trace` would be: then all runs are done first, what
  stops one of them is reported before this, and nothing is written
"#;

const L4: &str = r#"`refused L4 LINE`: in a text whose second line begins with `A`: an `A` line is
  wanted, and another line or the end of the text stands there, or an `A` line
  stands elsewhere. In any other text: an `A` line
"#;

const S1: &str = r#"S1: names what the schedule hasn't
"#;

const S2: &str = r#"S2: was done before: the condition asked, the system started or skipped, the
  sync point done
"#;

const S3: &str = r#"S3: comes too early: no system that the condition covers is free, the system
  is not free, or an earlier sync point isn't done
"#;

const S4: &str = r#"S4: starts or skips a system of which a condition was not asked
"#;

const S5: &str = r#"S5: starts a system of which a condition answered no
"#;

const S6: &str = r#"S6: skips a system of which no condition answered no
"#;

const S7: &str = r#"S7: asks or starts what meets a running system in the archetypes recorded
  last; where the trace records none, what conflicts with one
"#;

const S8: &str = r#"S8: finishes a system that doesn't run
"#;

const S9: &str = r#"S9: does a sync point while a system of its level has not ended
"#;

const E2: &str = r#"`refused E2`: the next tick would pass 2^62, or an event that is emitted would
  get the number 2^62; the events of each kind are numbered from 0
"#;

const E3: &str = r#"`refused E3`: as a run begins, or at a sync point, too few indices are vacant
  for the ids of the level that comes next. Where the next tick would pass
  2^62 as well, E2 is reported
"#;

const E6: &str = r#"`refused E6`: the body of a system refused, which no script does
"#;

/// What a code of a refusal means, in lines of their own, with examples; None of a word that is no code.
pub fn meaning_of(code: &str) -> Option<&'static str> {
    match code.as_bytes().first() {
        Some(b'P') => file_meaning(code),
        Some(b'B') => build_meaning(code),
        Some(b'X') => script_meaning(code),
        _ => trace_meaning(code),
    }
}

// The same of a code of a document.
fn file_meaning(code: &str) -> Option<&'static str> {
    match code {
        "P1" => Some(P1),
        "P2" => Some(P2),
        "P3" => Some(P3),
        "P4" => Some(P4),
        _ => None,
    }
}

// The same of a code of the builder.
fn build_meaning(code: &str) -> Option<&'static str> {
    match code {
        "B1" => Some(B1),
        "B2" => Some(B2),
        "B3" => Some(B3),
        "B4" => Some(B4),
        "B5" => Some(B5),
        "B6" => Some(B6),
        "B7" => Some(B7),
        "B8" => Some(B8),
        "B9" => Some(B9),
        "B10" => Some(B10),
        "B11" => Some(B11),
        "B12" => Some(B12),
        _ => None,
    }
}

// The same of a code of a script.
fn script_meaning(code: &str) -> Option<&'static str> {
    match code {
        "X1" => Some(X1),
        "X2" => Some(X2),
        "X3" => Some(X3),
        "X4" => Some(X4),
        "X5" => Some(X5),
        "X6" => Some(X6),
        _ => None,
    }
}

// The same of a code of a trace, of one of its steps, or of a run.
fn trace_meaning(code: &str) -> Option<&'static str> {
    match code {
        "L1" => Some(L1),
        "L2" => Some(L2),
        "L3" => Some(L3),
        "L4" => Some(L4),
        "S1" => Some(S1),
        "S2" => Some(S2),
        "S3" => Some(S3),
        "S4" => Some(S4),
        "S5" => Some(S5),
        "S6" => Some(S6),
        "S7" => Some(S7),
        "S8" => Some(S8),
        "S9" => Some(S9),
        "E2" => Some(E2),
        "E3" => Some(E3),
        "E6" => Some(E6),
        _ => None,
    }
}
