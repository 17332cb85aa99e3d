// What holds of every call.
#![tactic(auto)]

ghost use Rattle.c_claims.specs.OneLeavesAll.{OneLeavesAll};
ghost use Rattle.c_claims.specs.NumbersJudged.{NumbersJudged};
ghost use Rattle.c_claims.specs.RowsAgree.{RowsAgree};
ghost use Rattle.c_claims.specs.SizesSuffice.{SizesSuffice};
ghost use Rattle.c_claims.specs.StringsWellFormed.{StringsWellFormed};

// A call that returns 1 has changed nothing: neither state row, lent bytes nor answer row. Only a feed tells then that it
// used 0 bytes.
pub fn one_leaves_all()
    ensures { OneLeavesAll }
{}

// With the sizes that the C header names every writer takes what is in its range.
pub fn sizes_suffice()
    ensures { SizesSuffice }
{}

// What a caller carries from call to call is taken as what was told: the row of an ApplyFirmware, of a report and of a state; a field's row
// tells what stands at its place; place after place, all packets of a message and of a capture and all records of a file are given; joined
// packets are cut where each is told to end; why a capture is not lawful is told with the judge's verdict.
pub fn rows_agree()
    ensures { RowsAgree }
{}

// Every string that a reader's row tells lies within the message and is well formed; a text is taken exactly if it is.
pub fn strings_well_formed()
    ensures { StringsWellFormed }
{}

// Where the library takes a byte, a number above it is judged and not cut.
pub fn numbers_judged()
    ensures { NumbersJudged }
{}
