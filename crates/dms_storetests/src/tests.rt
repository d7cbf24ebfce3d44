use crate::running::{description, over_blocks, over_list};
use std::alloc::Global;
use std::test::Fail;

/// A schema of two data sets.
const TWO: &[u8] = b"RDS RESTART DATA SET (PID ALPHA(10););\nD DATA SET (X NUMBER(4););\n";

/// The same with a set.
const WITH_SET: &[u8] =
    b"RDS RESTART DATA SET (PID ALPHA(10););\nD DATA SET (X NUMBER(4););\nD-SET SET OF D KEY IS X;\n";

/// Required items, a condition, room for two records, a set and two automatic subsets.
const RULED: &[u8] = b"RDS RESTART DATA SET (PID ALPHA(10) REQUIRED;);
D DATA SET (X NUMBER(4) REQUIRED; Y NUMBER(2);) POPULATION = 2, VERIFY Y <> 7;
D-SET SET OF D KEY IS X;
D-HIGH SUBSET OF D WHERE (Y > 10) KEY IS Y DESCENDING, DUPLICATES;
D-TOP SUBSET OF D WHERE (Y > 90) KEY IS Y;
";

/// What is asked under a schema, and what is answered.
#[derive(Clone, Copy)]
struct ScriptCase {
    shows: &'static str,
    schema: &'static [u8],
    script: &'static [u8],
    answers: &'static [u8],
}

const ROWS: [ScriptCase; 7] = [
    ScriptCase {
        shows: "an empty script",
        schema: TWO,
        script: b"",
        answers: b"",
    },
    ScriptCase {
        shows: "a find by a key",
        schema: WITH_SET,
        script: b"A: OPEN UPDATE
A: BEGIN-TRANSACTION NO-AUDIT RDS
A: CREATE D
A: PUT D X = 5
A: STORE D
A: END-TRANSACTION NO-AUDIT RDS
A: FIND D-SET AT X = 5
A: GET D
",
        answers: b"1 A DONE
2 A DONE
3 A DONE
4 A DONE
5 A DONE
6 A DONE
7 A DONE
8 A DONE X=5
",
    },
    ScriptCase {
        shows: "a transaction waits for a syncpoint",
        schema: TWO,
        script: b"A: OPEN UPDATE
B: OPEN UPDATE
C: OPEN UPDATE
A: BEGIN-TRANSACTION NO-AUDIT RDS
B: BEGIN-TRANSACTION NO-AUDIT RDS
A: END-TRANSACTION NO-AUDIT RDS SYNC
C: BEGIN-TRANSACTION NO-AUDIT RDS
B: END-TRANSACTION NO-AUDIT RDS
",
        answers: b"1 A DONE
2 B DONE
3 C DONE
4 A DONE
5 B DONE
6 A DONE
7 C WAITS FOR B
8 B DONE
SYNCPOINT 1
7 C DONE
",
    },
    ScriptCase {
        shows: "a back-out",
        schema: TWO,
        script: b"A: OPEN UPDATE
B: OPEN UPDATE
A: BEGIN-TRANSACTION NO-AUDIT RDS
B: BEGIN-TRANSACTION NO-AUDIT RDS
B: CREATE D
B: STORE D
B: END-TRANSACTION NO-AUDIT RDS
A: ABORT-TRANSACTION RDS
B: FIND FIRST D
B: FIND FIRST D
A: ABORT-TRANSACTION RDS
",
        answers: b"1 A DONE
2 B DONE
3 A DONE
4 B DONE
5 B DONE
6 B DONE
7 B DONE
8 A DONE
9 B EXCEPTION ABORT B
10 B EXCEPTION NOTFOUND D
11 A EXCEPTION AUDITERROR A
",
    },
    ScriptCase {
        shows: "refusals",
        schema: RULED,
        script: b"A: GET D
A: CLOSE
A: OPEN UPDATE
A: OPEN INQUIRY
B: OPEN INQUIRY
B: STORE D
B: BEGIN-TRANSACTION NO-AUDIT RDS
B: END-TRANSACTION NO-AUDIT RDS
B: ABORT-TRANSACTION RDS
B: FIND FIRST D
B: FIND LAST D-HIGH
B: FIND D-SET AT X = 1
A: PUT D X = 1
A: GET D
A: STORE D
A: END-TRANSACTION NO-AUDIT RDS
A: ABORT-TRANSACTION RDS
A: BEGIN-TRANSACTION AUDIT RDS
A: CREATE RDS
A: BEGIN-TRANSACTION AUDIT RDS
A: PUT RDS PID = \"A\"
A: BEGIN-TRANSACTION AUDIT RDS
A: BEGIN-TRANSACTION NO-AUDIT RDS
A: CLOSE
A: STORE D
A: CREATE D
A: STORE D
A: PUT D X = 10000
A: PUT D X = 1, Y = 7
A: STORE D
A: PUT D Y = 20
A: STORE D
A: CREATE D
A: PUT D X = 1
A: STORE D
A: PUT D X = 2, Y = 30
A: STORE D
A: CREATE D
A: PUT D X = 3
A: STORE D
A: END-TRANSACTION NO-AUDIT RDS
A: FIND D-SET AT X = 1
A: BEGIN-TRANSACTION NO-AUDIT RDS
A: STORE D
A: ABORT-TRANSACTION RDS
B: FIND FIRST D-HIGH
B: GET D
B: FIND LAST D-HIGH
B: GET D
B: FIND D-HIGH AT Y = 20
B: FIND D-SET AT X = 3
A: CLOSE
A: GET D
",
        answers: b"1 A EXCEPTION OPENERROR A
2 A EXCEPTION OPENERROR A
3 A DONE
4 A EXCEPTION OPENERROR A
5 B DONE
6 B EXCEPTION READONLY B
7 B EXCEPTION READONLY B
8 B EXCEPTION READONLY B
9 B EXCEPTION READONLY B
10 B EXCEPTION NOTFOUND D
11 B EXCEPTION NOTFOUND D-HIGH
12 B EXCEPTION NOTFOUND D-SET
13 A EXCEPTION NORECORD D
14 A EXCEPTION NORECORD D
15 A EXCEPTION AUDITERROR A
16 A EXCEPTION AUDITERROR A
17 A EXCEPTION AUDITERROR A
18 A EXCEPTION NORECORD RDS
19 A DONE
20 A EXCEPTION DATAERROR PID
21 A DONE
22 A DONE
23 A EXCEPTION AUDITERROR A
24 A EXCEPTION AUDITERROR A
25 A EXCEPTION NORECORD D
26 A DONE
27 A EXCEPTION DATAERROR X
28 A EXCEPTION DATAERROR X
29 A DONE
30 A EXCEPTION DATAERROR D
31 A DONE
32 A DONE
33 A DONE
34 A DONE
35 A EXCEPTION DUPLICATES D-SET
36 A DONE
37 A DONE
38 A DONE
39 A DONE
40 A EXCEPTION LIMITERROR D
41 A DONE
42 A DONE
43 A DONE
44 A EXCEPTION NOTLOCKED D
45 A DONE
46 B DONE
47 B DONE X=2, Y=30
48 B DONE
49 B DONE X=1, Y=20
50 B DONE
51 B EXCEPTION NOTFOUND D-SET
52 A DONE
53 A EXCEPTION OPENERROR A
",
    },
    ScriptCase {
        shows: "a record stored again",
        schema: RULED,
        script: b"A: OPEN UPDATE
A: BEGIN-TRANSACTION NO-AUDIT RDS
A: CREATE D
A: PUT D X = 1, Y = 20
A: STORE D
A: PUT D X = 3, Y = 5
A: STORE D
A: FIND D-SET AT X = 1
A: FIND FIRST D-HIGH
A: FIND D-SET AT X = 3
A: GET D
A: ABORT-TRANSACTION RDS
A: FIND FIRST D
A: FIND LAST D-SET
",
        answers: b"1 A DONE
2 A DONE
3 A DONE
4 A DONE
5 A DONE
6 A DONE
7 A DONE
8 A EXCEPTION NOTFOUND D-SET
9 A EXCEPTION NOTFOUND D-HIGH
10 A DONE
11 A DONE X=3, Y=5
12 A DONE
13 A EXCEPTION NOTFOUND D
14 A EXCEPTION NOTFOUND D-SET
",
    },
    ScriptCase {
        shows: "a restart record, and a subset without duplicates",
        schema: RULED,
        script: b"A: OPEN UPDATE
A: BEGIN-TRANSACTION NO-AUDIT RDS
A: END-TRANSACTION AUDIT RDS
A: CREATE RDS
A: END-TRANSACTION AUDIT RDS
A: PUT RDS PID = \"A\"
A: END-TRANSACTION AUDIT RDS
A: BEGIN-TRANSACTION AUDIT RDS
A: BEGIN-TRANSACTION NO-AUDIT RDS
A: CREATE D
A: PUT D X = 1, Y = 95
A: STORE D
A: CREATE D
A: PUT D X = 2
A: PUT D Y = 95
A: STORE D
A: PUT D Y = 96
A: STORE D
A: FIND FIRST D-TOP
A: GET D X
A: FIND LAST RDS
A: GET RDS
A: END-TRANSACTION NO-AUDIT RDS
",
        answers: b"1 A DONE
2 A DONE
3 A EXCEPTION NORECORD RDS
4 A DONE
5 A EXCEPTION DATAERROR PID
6 A DONE
7 A DONE
8 A EXCEPTION NOTLOCKED RDS
9 A DONE
10 A DONE
11 A DONE
12 A DONE
13 A DONE
14 A DONE
15 A DONE
16 A EXCEPTION DUPLICATES D-TOP
17 A DONE
18 A DONE
19 A DONE
20 A DONE X=1
21 A DONE
22 A DONE PID=\"A\"
23 A DONE
",
    },
];

/// Customers with notes of their own and a list of accounts, and accounts with a counted link to who holds them.
const BANK: &[u8] = b"PARAMETERS (SYNCPOINT = 100 TRANSACTIONS, CONTROLPOINT = 2 SYNCPOINTS);
RDS RESTART DATA SET (PID ALPHA(10) REQUIRED; STEP NUMBER(6););
RDS-SET SET OF RDS KEY IS PID;
CUSTOMER DATA SET (
  CNO NUMBER(6) REQUIRED;  NAME ALPHA(30);  MAIN-ACCT LINK TO ACCOUNT;
  NOTE DATA SET (NNO NUMBER(4); REMARK ALPHA(40););
  NOTE-SET SET OF NOTE KEY IS NNO;
  ACCTS SUBSET OF ACCOUNT KEY IS ANO; );
CUST-SET SET OF CUSTOMER KEY IS CNO, INDEX SEQUENTIAL;
ACCOUNT DATA SET (
  ANO NUMBER(8) REQUIRED;  BAL NUMBER(S5,2) INITIALVALUE = 0;
  ACTIVE BOOLEAN INITIALVALUE = TRUE;  HOLDER LINK TO CUSTOMER COUNTED;
) VERIFY BAL >= -500;
ACCT-SET SET OF ACCOUNT KEY IS ANO;
RICH SUBSET OF ACCOUNT WHERE (BAL > 100) KEY IS BAL DESCENDING, DUPLICATES, ORDERED LIST;
";

/// What is asked with the verbs of links, entries and records within records.
const BANK_ROWS: [ScriptCase; 4] = [
    ScriptCase {
        shows: "what entries and links show to another program",
        schema: BANK,
        script: b"A: OPEN UPDATE
B: OPEN INQUIRY
A: CREATE RDS
A: PUT RDS PID = \"A\", STEP = 1
A: BEGIN-TRANSACTION AUDIT RDS
A: CREATE CUSTOMER
A: PUT CUSTOMER CNO = 7, NAME = \"ANN LEE\"
A: STORE CUSTOMER
A: CREATE ACCOUNT
A: PUT ACCOUNT ANO = 100, BAL = 250.5
A: STORE ACCOUNT
A: ASSIGN CUSTOMER TO HOLDER OF ACCOUNT
A: INSERT ACCOUNT INTO ACCTS
A: END-TRANSACTION NO-AUDIT RDS SYNC
B: FIND CUST-SET AT CNO = 7
B: FIND FIRST ACCTS
B: GET ACCOUNT
B: FIND NEXT RICH
B: STORE ACCOUNT
B: FIND NEXT RICH
",
        answers: b"1 A DONE
2 B DONE
3 A DONE
4 A DONE
5 A DONE
6 A DONE
7 A DONE
8 A DONE
9 A DONE
10 A DONE
11 A DONE
12 A DONE
13 A DONE
14 A DONE
SYNCPOINT 1
15 B DONE
16 B DONE
17 B DONE ANO=100, BAL=250.50, ACTIVE=TRUE, HOLDER=1
18 B DONE
19 B EXCEPTION READONLY B
20 B EXCEPTION NOTFOUND RICH
",
    },
    ScriptCase {
        shows: "a find goes on behind a member that moved",
        schema: BANK,
        script: b"A: OPEN UPDATE
B: OPEN INQUIRY
A: CREATE RDS
A: PUT RDS PID = \"A\", STEP = 1
A: BEGIN-TRANSACTION AUDIT RDS
A: CREATE CUSTOMER
A: PUT CUSTOMER CNO = 7, NAME = \"ANN LEE\"
A: STORE CUSTOMER
A: CREATE ACCOUNT
A: PUT ACCOUNT ANO = 100, BAL = 250.5
A: STORE ACCOUNT
A: ASSIGN CUSTOMER TO HOLDER OF ACCOUNT
A: INSERT ACCOUNT INTO ACCTS
A: END-TRANSACTION NO-AUDIT RDS SYNC
A: BEGIN-TRANSACTION NO-AUDIT RDS
A: CREATE ACCOUNT
A: PUT ACCOUNT ANO = 101, BAL = 200
A: STORE ACCOUNT
B: FIND FIRST RICH
A: LOCK ACCT-SET AT ANO = 100
A: PUT ACCOUNT BAL = 50
A: STORE ACCOUNT
B: FIND NEXT RICH
B: GET ACCOUNT ANO
",
        answers: b"1 A DONE
2 B DONE
3 A DONE
4 A DONE
5 A DONE
6 A DONE
7 A DONE
8 A DONE
9 A DONE
10 A DONE
11 A DONE
12 A DONE
13 A DONE
14 A DONE
SYNCPOINT 1
15 A DONE
16 A DONE
17 A DONE
18 A DONE
19 B DONE
20 A DONE
21 A DONE
22 A DONE
23 B DONE
24 B DONE ANO=101
",
    },
    ScriptCase {
        shows: "links to a deleted record are null, and its number is free",
        schema: BANK,
        script: b"A: OPEN UPDATE
B: OPEN INQUIRY
A: CREATE RDS
A: PUT RDS PID = \"A\", STEP = 1
A: BEGIN-TRANSACTION AUDIT RDS
A: CREATE CUSTOMER
A: PUT CUSTOMER CNO = 7, NAME = \"ANN LEE\"
A: STORE CUSTOMER
A: CREATE ACCOUNT
A: PUT ACCOUNT ANO = 100, BAL = 250.5
A: STORE ACCOUNT
A: ASSIGN CUSTOMER TO HOLDER OF ACCOUNT
A: INSERT ACCOUNT INTO ACCTS
A: END-TRANSACTION NO-AUDIT RDS SYNC
A: BEGIN-TRANSACTION NO-AUDIT RDS
A: LOCK CUST-SET AT CNO = 7
A: ASSIGN ACCOUNT TO MAIN-ACCT OF CUSTOMER
A: LOCK ACCT-SET AT ANO = 100
A: DELETE ACCOUNT
A: REMOVE ACCOUNT FROM ACCTS
A: DELETE ACCOUNT
A: GET CUSTOMER MAIN-ACCT
C: OPEN UPDATE
C: CREATE ACCOUNT
C: PUT ACCOUNT ANO = 200
C: BEGIN-TRANSACTION NO-AUDIT RDS
C: STORE ACCOUNT
A: FIND VIA MAIN-ACCT OF CUSTOMER
",
        answers: b"1 A DONE
2 B DONE
3 A DONE
4 A DONE
5 A DONE
6 A DONE
7 A DONE
8 A DONE
9 A DONE
10 A DONE
11 A DONE
12 A DONE
13 A DONE
14 A DONE
SYNCPOINT 1
15 A DONE
16 A DONE
17 A DONE
18 A DONE
19 A EXCEPTION INUSE ACCOUNT
20 A DONE
21 A DONE
22 A DONE MAIN-ACCT=NULL
23 C DONE
24 C DONE
25 C DONE
26 C DONE
27 C DONE
28 A EXCEPTION NOTFOUND MAIN-ACCT
",
    },
    ScriptCase {
        shows: "what keeps a record from being deleted",
        schema: BANK,
        script: b"A: OPEN UPDATE
B: OPEN INQUIRY
A: CREATE RDS
A: PUT RDS PID = \"A\", STEP = 1
A: BEGIN-TRANSACTION AUDIT RDS
A: CREATE CUSTOMER
A: PUT CUSTOMER CNO = 7, NAME = \"ANN LEE\"
A: STORE CUSTOMER
A: CREATE ACCOUNT
A: PUT ACCOUNT ANO = 100, BAL = 250.5
A: STORE ACCOUNT
A: ASSIGN CUSTOMER TO HOLDER OF ACCOUNT
A: INSERT ACCOUNT INTO ACCTS
A: END-TRANSACTION NO-AUDIT RDS SYNC
A: BEGIN-TRANSACTION NO-AUDIT RDS
A: LOCK CUST-SET AT CNO = 7
A: DELETE CUSTOMER
A: LOCK ACCT-SET AT ANO = 100
A: ASSIGN NULL TO HOLDER OF ACCOUNT
A: REMOVE ACCOUNT FROM ACCTS
A: CREATE NOTE
A: PUT NOTE NNO = 1
A: STORE NOTE
A: DELETE CUSTOMER
A: DELETE NOTE
A: DELETE CUSTOMER
",
        answers: b"1 A DONE
2 B DONE
3 A DONE
4 A DONE
5 A DONE
6 A DONE
7 A DONE
8 A DONE
9 A DONE
10 A DONE
11 A DONE
12 A DONE
13 A DONE
14 A DONE
SYNCPOINT 1
15 A DONE
16 A DONE
17 A EXCEPTION INUSE CUSTOMER
18 A DONE
19 A DONE
20 A DONE
21 A DONE
22 A DONE
23 A DONE
24 A EXCEPTION INUSE CUSTOMER
25 A DONE
26 A DONE
",
    },
];

/// Whether both stores answer a script so.
fn answers_so(alloc: Global, schema: &[u8], script: &[u8], answers: &[u8]) -> bool {
    let Some(desc) = description(alloc, schema) else {
        return false;
    };
    let list = over_list(alloc, &desc, script);
    let blocks = over_blocks(alloc, &desc, script);
    match (list, blocks) {
        (Some(list), Some(blocks)) => list.as_slice() == answers && blocks.as_slice() == answers,
        _ => false,
    }
}

#[test]
fn both_stores_answer_alike(rt: HostRuntime) {
    let alloc = rt.alloc();
    for place in 0..ROWS.len() {
        let row = &ROWS[place];
        let so = answers_so(alloc, row.schema, row.script, row.answers);
        assert!(rt; so, "{}", row.shows);
    }
    for place in 0..BANK_ROWS.len() {
        let row = &BANK_ROWS[place];
        let so = answers_so(alloc, row.schema, row.script, row.answers);
        assert!(rt; so, "{}", row.shows);
    }
}

/// A script that stores 200 records, the greatest key first, and then finds three.
fn many(alloc: Global) -> Result<(String, String), Fail> {
    let mut script = String::from_str(
        alloc,
        "A: OPEN UPDATE\nA: BEGIN-TRANSACTION NO-AUDIT RDS\n",
    )?;
    let mut answers = String::from_str(alloc, "1 A DONE\n2 A DONE\n")?;
    for n in 0..200u32 {
        let asked = format!(in alloc; "A: CREATE D\nA: PUT D X = {}\nA: STORE D\n", 200 - n)?;
        script.push_str(asked.as_str())?;
        let at = 3 * n + 3;
        let done = format!(in alloc; "{at} A DONE\n{} A DONE\n{} A DONE\n", at + 1, at + 2)?;
        answers.push_str(done.as_str())?;
    }
    script.push_str("A: FIND FIRST D-SET\nA: GET D\nA: FIND LAST D-SET\nA: GET D\n")?;
    script.push_str("A: FIND FIRST D\nA: GET D\n")?;
    answers.push_str("603 A DONE\n604 A DONE X=1\n605 A DONE\n606 A DONE X=200\n")?;
    answers.push_str("607 A DONE\n608 A DONE X=200\n")?;
    Ok((script, answers))
}

#[test]
fn both_stores_keep_many_records(rt: HostRuntime) -> Result<(), Fail> {
    let alloc = rt.alloc();
    let (script, answers) = many(alloc)?;
    let so = answers_so(alloc, WITH_SET, script.as_bytes(), answers.as_bytes());
    assert!(rt; so);
    Ok(())
}

/// A script in which 65 programs open the database.
fn openings(alloc: Global) -> Result<(String, String), Fail> {
    let mut script = String::new(alloc);
    let mut answers = String::new(alloc);
    for n in 1..66u32 {
        let asked = format!(in alloc; "P{n}: OPEN INQUIRY\n")?;
        script.push_str(asked.as_str())?;
        let end = if n < 65 {
            "DONE"
        } else {
            "EXCEPTION LIMITERROR P65"
        };
        let answered = format!(in alloc; "{n} P{n} {end}\n")?;
        answers.push_str(answered.as_str())?;
    }
    Ok((script, answers))
}

#[test]
fn sixty_four_programs_are_open(rt: HostRuntime) -> Result<(), Fail> {
    let alloc = rt.alloc();
    let (script, answers) = openings(alloc)?;
    let so = answers_so(alloc, TWO, script.as_bytes(), answers.as_bytes());
    assert!(rt; so);
    Ok(())
}
