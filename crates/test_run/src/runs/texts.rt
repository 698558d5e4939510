//! Files and remittances, which are written by hand. A function returns each text, so that its
//! callers are proved without the text.

const EMPTY: &str =
    "provider,record,claim,member,status,reason,allowed,ded,copay,coins,share,paid,remarks\r
total,0,,,,,0.00,0.00,0.00,0.00,0.00,0.00,\r
";

/// The remittance of a file without records.
pub fn empty_remittance() -> &'static str {
    EMPTY
}

const FAMILIES: &str =
    "provider,record,claim,family,member,year,status,reason,allowed,ded,copay,coins,share,paid,remarks\r
1,1,e1,F1,M1,2024,paid,,100.00,50.00,10.00,8.00,60.00,40.00,OVER\r
1,2,e2,F1,M2,2024,paid,,100.00,30.00,10.00,12.00,40.00,60.00,\r
1,3,e3,F1,M3,2024,paid,,100.00,0.00,10.00,18.00,0.00,100.00,\r
1,4,e4,F2,M1,2024,paid,,30.00,30.00,0.00,0.00,30.00,0.00,\r
total,4,,,,,,,330.00,110.00,30.00,38.00,130.00,200.00,\r
";

/// The remittance of the family file without opening balances.
pub fn family_remittance() -> &'static str {
    FAMILIES
}

const THREE_AND_THREE: &[&[u8]] = &[
    b"claim,member,service,billed,code
a1,M1,2024-01-01,1.00,X
a2,M1,2024-01-01,1.00,X
a3,M1,2024-01-01,1.00,X
",
    b"claim,member,service,billed,code
b1,M1,2024-01-01,1.00,X
b2,M2,2024-01-01,1.00,X
b3,M2,2024-01-01,1.00,X
",
];

/// Two files of three claims each, none of which is covered.
pub fn three_and_three() -> &'static [&'static [u8]] {
    THREE_AND_THREE
}

const SPLITS: &[&str] = &[
    // Three claims of the first file and one of the second.
    "provider,record,claim,member,status,reason,allowed,ded,copay,coins,share,paid,remarks\r
1,1,a1,M1,denied,,0.00,0.00,0.00,0.00,0.00,0.00,\r
1,2,a2,M1,denied,,0.00,0.00,0.00,0.00,0.00,0.00,\r
1,3,a3,M1,denied,,0.00,0.00,0.00,0.00,0.00,0.00,\r
2,1,b1,M1,denied,,0.00,0.00,0.00,0.00,0.00,0.00,\r
2,2,b2,M2,late,,,,,,,,\r
2,3,b3,M2,late,,,,,,,,\r
total,4,,,,,0.00,0.00,0.00,0.00,0.00,0.00,\r
",
    // Two claims of each file.
    "provider,record,claim,member,status,reason,allowed,ded,copay,coins,share,paid,remarks\r
1,1,a1,M1,denied,,0.00,0.00,0.00,0.00,0.00,0.00,\r
1,2,a2,M1,denied,,0.00,0.00,0.00,0.00,0.00,0.00,\r
1,3,a3,M1,late,,,,,,,,\r
2,1,b1,M1,denied,,0.00,0.00,0.00,0.00,0.00,0.00,\r
2,2,b2,M2,denied,,0.00,0.00,0.00,0.00,0.00,0.00,\r
2,3,b3,M2,late,,,,,,,,\r
total,4,,,,,0.00,0.00,0.00,0.00,0.00,0.00,\r
",
    // One claim of the first file and three of the second.
    "provider,record,claim,member,status,reason,allowed,ded,copay,coins,share,paid,remarks\r
1,1,a1,M1,denied,,0.00,0.00,0.00,0.00,0.00,0.00,\r
1,2,a2,M1,late,,,,,,,,\r
1,3,a3,M1,late,,,,,,,,\r
2,1,b1,M1,denied,,0.00,0.00,0.00,0.00,0.00,0.00,\r
2,2,b2,M2,denied,,0.00,0.00,0.00,0.00,0.00,0.00,\r
2,3,b3,M2,denied,,0.00,0.00,0.00,0.00,0.00,0.00,\r
total,4,,,,,0.00,0.00,0.00,0.00,0.00,0.00,\r
",
];

/// The remittances of these files if four claims are accepted.
pub fn splits() -> &'static [&'static str] {
    SPLITS
}
