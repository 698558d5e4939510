//! What to write in place of a cell or a literal that cannot be read: for each form that people write, the fix as a sentence.
//!
//! A list is a text, as `row.rt` reads it: headings with a sentence, and below each the forms that it is for. The list is searched from its top, and
//! the first form that fits has the fix. `forms.rt` says what a form is. The values of the text replace the pairs of braces of the sentence, in their
//! order.

/// Cells and literals of any kind, before those of the kind.
pub const FIRST: &str = r#"
@any Write straight double quotes round the text: '"OFFICE"' for the word OFFICE.
*FU*”*
*FU*“*
@any Add the closing double quote of the text.
*FU*
@ended Put all tests of `not` in parentheses, and nothing after them: not(1,2).
not*
@cell Put all tests of `not` in parentheses, and nothing after them: not(1,2).
not F*
@test Write `not` for every other value: not({}).
!= N
<> N
! N
≠ N
is not N
other than N
except N
@cell Add the closing parenthesis of `not`.
not*FE
@test Write a test after the comma, or remove the comma.
FE
@test Write `-` for any value.
X
any
all
n/a
–
—
@test Write `-` for any value, in the last rule of a table under the hit policy `F`.
else
otherwise
@literal Write one literal; a comparison, an interval, `not(..)` or a dash is not allowed here.
*F<*
*F>*
F[*
F(*
F]*
Fnot (*
"#;

/// Cells of kinds with an order: numbers and days.
pub const RANGES: &str = r#"
@test Separate tests by a comma, which means `or`: {}{},{}{}.
O N or O N
O N | O N
O N || O N
O N / O N
@range Write the range as one interval: [{}..{}].
>= N&<= N
@range Write the range as one interval: [{}..{}[.
>= N&< N
@range Write the range as one interval: ]{}..{}].
> N&<= N
@range Write the range as one interval: ]{}..{}[.
> N&< N
@range Write the range as one interval: [{}..{}].
>= N&≤ N
@range Write the range as one interval: ]{}..{}].
> N&≤ N
@range Write the range as one interval: [{}..{}].
≥ N&<= N
≥ N&≤ N
@range Write the range as one interval: [{}..{}[.
≥ N&< N
@range Write the range as one interval: [{}..{}].
N <= W <= N
@range Write the range as one interval: [{}..{}[.
N <= W < N
@range Write the range as one interval: ]{}..{}].
N < W <= N
@range Write the range as one interval: ]{}..{}[.
N < W < N
@range Write the range as one interval: [{}..{}].
N ≤ W ≤ N
between N and N
from N to N
N to N
N through N
N thru N
N - N
N – N
N .. N
N ... N
@range Write the range as one interval: [{}..{}[.
N .. N[
@range Write the range as one interval: [{}..{}].
N .. N]
[N - N]
[N – N]
@range Write a range as [{}..{}], and two values without brackets, with a comma between them.
[N , N]
[N ; N]
@range Write the range as one interval: [{}..{}].
[N : N]
[N to N]
@range Close the interval, by `]` with its end or by `[` without it: [{}..{}].
[N .. N
@range Close the interval, by `]` with its end or by `[` without it: ({}..{}].
(N .. N
@test Write an interval in brackets, with two dots between its ends: [1..3].
[N F*
(N F*
]N F*
[N .. N F*
@test Write a comparison: >={}.
[N .. ]
N ..
@test Write a comparison: <={}.
[.. N]
.. N
@test Write an interval in brackets, with two dots between its ends: [1..3].
N F..*
@test Write a comparison: >={}.
=> N
> = N
≥ N
at least N
from N
since N
@test Write a comparison: <={}.
=< N
< = N
≤ N
at most N
up to N
@test Write a comparison: >{}.
over N
above N
more than N
older than N
greater than N
after N
@test Write a comparison: <{}.
under N
below N
less than N
younger than N
before N
@test Write a comparison: >={}.
N +
N plus
N and over
N or over
N and older
N or older
N and above
N or above
N and more
N or more
N and up
N up
N onwards
@test Write a comparison: <={}.
N and under
N or under
N and younger
N or younger
N and below
N or below
N or less
@any Write the signs of a comparison in this order and without a space: >= or <=.
*F=<*
*F=>*
@test Write the signs of a comparison in this order and without a space: >= or <=.
*> F=*
*< F=*
@test Separate tests by a comma, which means `or`. Write a range as one interval: [18..65].
O N ≤*
O N ≥*
N ≤*
N ≥*
@test Write the test without the word after it: {}{}.
O N years
O N yrs
O N months
O N days
O N units
O N mg
O N usd
O N eur
@test Write a value or a comparison without words, such as 5, <5 or <=5.
O N W
"#;

/// Cells and literals of numbers.
pub const NUMBERS: &str = r#"
@any Write the literal without a sign for equality.
*F=*
@any Write a percentage as a fraction: 0.25 for 25 %.
*F%*
@any Write the number without quotes: {}.
"N"
@any The column has numbers: write a number without quotes, such as 12.5.
*F"*
*Ftrue*
*Ffalse*
*Fdate*
9999-99-99*
@test Write a literal, or `-` for any value; a value is never missing.
null
empty
none
@literal Write a number without commas. Only the cell of an input can have several tests.
N,*
@literal Write a decimal number: 0.3333 for 1/3.
N / N
@literal Write one number without a space: {}{}.
N T
@test Write one number without a space, {}{}, and two values with a comma between them.
N T
@any Write the number without the dot: {}.
N.
@any Write a number as digits, with a dot before its decimals: 1234.5.
NW*
N.*
N$*
N+*
@literal Write one literal, with nothing before or after it.
N F*
@test Write the number without the word after it: {}.
N years
N yrs
N months
N days
N units
N mg
N usd
N eur
@test Write a value or a comparison without words, such as 5, <5 or <=5.
N W
@test Separate tests by a comma, which means `or`. Write a range as one interval: [18..65].
N F*
O N F*
@test Write a dash as the whole cell, and a minus sign directly before its digits: -5.
-*
@ended Separate tests by a comma, which means `or`. Write a range as one interval: [18..65].
*
@test Write a number as digits, a comparison by its sign, as in >=18, and a range as one interval: [18..65].
FW*9*
@any Write a number as digits, with a dot before its decimals: 1234.5.
*FW*
*F$*
*F+*
@test Write a dash as the whole cell, and a minus sign directly before its digits: -5.
*F-*
"#;

/// Cells and literals of texts.
pub const TEXTS: &str = r#"
@any Write the literal without a sign for equality.
*F=*
@test Write an empty text with its quotes: '""'.
null
empty
blank
@literal Write an empty text with its quotes: '""'.
FE
@test Write the text without a dash, or not({}) for every other text.
- N
@test Write the texts without brackets, with commas between them: "A","B".
[N ,*
(N ,*
[N]
(N)
{*
in (*
in [*
in N*
@test List the whole texts; no test looks for a part of a text.
like*
contains*
X*
%*
~*
WX*
starts with*
begins with*
@any Write one double quote on each side of the text.
""W*
@any Put a text in double quotes, also one of digits: '"99213"'.
F-9*
@test Write a dash as the whole cell, and a minus sign directly before its digits: -5.
-*
@any Write a double quote within a text as \", and a comma between two texts.
NW*
N"*
@test List the texts; comparisons and intervals of texts are not allowed.
N ..*
N -*
N to *
@test Separate tests by a comma, which means `or`.
N F*
@literal Write one literal, with nothing before or after it.
N F*
@test Write `not` with the text in double quotes: not("A").
!= W*
<> W*
! W*
@any Write straight double quotes round the text: '"OFFICE"' for the word OFFICE.
*F`*
*F«*
*F“*
*F”*
*F„*
@any List the texts; comparisons and intervals of texts are not allowed.
*F<*
*F>*
*F[*
*F(*
*F]*
@test Put each text in double quotes, and list all texts of a range: '"99213","99214"'.
F9*-9*
@test Put each text in double quotes: '"A","B"' for the words A and B.
F9*,*
F9*or *
@any Put a text in double quotes, also one of digits: '"99213"'.
*F9*
*F.9*
@test List the texts; comparisons and intervals of texts are not allowed.
FW..*
@test Put each text in double quotes: '"A","B"' for the words A and B.
FW*,*
FW or *
FW /*
FW ;*
FW |*
@any Put a text in double quotes: '"OFFICE"' for the word OFFICE.
*FW*
"#;

/// Cells and literals of flags.
pub const FLAGS: &str = r#"
@any Write the literal without a sign for equality.
*F=*
@test Write a literal, or `-` for any value; a value is never missing.
null
empty
@test Write `-` for any value.
yes/no
y/n
@test Separate tests by a comma, which means `or`.
N F*
@literal Write one literal, with nothing before or after it.
N F*
@any Write a flag as true or false, in lower case and without quotes.
*
"#;

/// Cells and literals of days.
pub const DAYS: &str = r#"
@any Write the literal without a sign for equality.
*F=*
@test Write a literal, or `-` for any value; a value is never missing.
null
empty
@any Write a fixed day, as in date("2024-02-29"); a plan does not read the clock.
*Ftoday*
*Fnow*
@test Write the range as one interval: [date("{}-01-01")..date("{}-12-31")].
Y
in Y
@test Separate tests by a comma, which means `or`. Write a range as one interval: [18..65].
N F*
O N F*
@literal Write one literal, with nothing before or after it.
N F*
@any Put the day in double quotes: date("{}").
*date ( I )*
*date ( ' I ' )*
@any Write the word date in lower case: date("2024-02-29").
*Fdate (*
@any Write a day with the word date: date("2024-02-29").
*
"#;

/// Days that do not exist.
pub const DATES: &str = r#"
@any Write the day without a time: date("2024-02-29").
*Fdate ( "9999-99-99t*
@any Correct the date; the calendar has no such day.
*Fdate ( "9999-99-99"*
@any Write the year with four digits, and the month and the day with two: date("2024-02-29").
*
"#;

/// Numbers that are too fine or too large, and texts that are too long.
pub const LITERALS: &str = r#"
@any Shorten the text to 256 bytes.
*F"*
@any Write a number of at most eleven digits before its dot.
*F999999999999*
*F-999999999999*
@any Round the number to four decimals.
*
"#;

/// Cells and literals of any kind, after those of the kind.
pub const LAST: &str = r#"
@literal Write one literal; a comparison, an interval, `not(..)` or a dash is not allowed here.
-*
@literal Write one literal: a number, a text in double quotes, true, false, or date("2024-02-29").
*
@test Write `-` for any value, or tests that are separated by commas, such as 5, <10 or [1..3], or not(..) of such tests.
*
"#;
