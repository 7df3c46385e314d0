use crate::libraries::messages::{bytes_of, put_bytes};
use crate::tables::{Asking, Question, assert_table};
use addresses::Addr;
use slp_answer::{is_change, refusal};
use slp_text::NoMemory;
use std::alloc::Global;

#[derive(Clone, Copy)]
struct Answers;

// Prints the reply and the line that bytes get which find no memory.
fn print_refusal(alloc: Global, bytes: &[u8], out: &mut String) -> Result<(), NoMemory> {
    let mut reply = [0u8; 80];
    let mut line = [0u8; 128];
    let (sent, told) = refusal(bytes, Addr(0x0a00_0001), &mut reply, &mut line);
    put_bytes(alloc, &reply[..sent], out)?;
    let Ok(line) = str::from_utf8(&line[..told]) else {
        return Err(NoMemory);
    };
    for part in line.split('\n') {
        out.push(';')?;
        out.push_str(part)?;
    }
    Ok(())
}

impl Asking for Answers {
    type Fault = NoMemory;

    fn print(self, alloc: Global, row: Question<'_>, out: &mut String) -> Result<(), NoMemory> {
        let bytes = bytes_of(alloc, row.text)?;
        match row.word {
            "change" if is_change(bytes.as_slice()) => Ok(out.push_str("yes")?),
            "change" => Ok(out.push_str("no")?),
            _ => print_refusal(alloc, bytes.as_slice(), out),
        }
    }
}

// Whether the bytes of digits ask for a change, and the reply and the line that they get where they find no memory: each
// part of the line is after `;`, and its end is one, too.
const TABLE: &str = "
change¦0201000030000000000000010002656e0000000f736572766963653a7072696e746572000744454641554c5400000000¦¦no
change¦020300004e400000000000020002656e00012c0017736572766963653a7072696e7465723a6c70723a2f2f61000013736572766963653a7072696e7465723a6c7072000744454641554c54000000¦¦yes
change¦0204000038000000000000030002656e¦¦yes
change¦020400003800000000000003000265¦¦no
change¦¦¦no
refused¦020300004e400000000000020002656e00012c0017736572766963653a7072696e7465723a6c70723a2f2f61000013736572766963653a7072696e7465723a6c7072000744454641554c54000000¦¦0205000012000000000000020002656e000a;# deny code=10 by=memory action=register asker=10.0.0.1 type=- scope=-;
refused¦0201000030000000000000010002656e0000000f736572766963653a7072696e746572000744454641554c5400000000¦¦0202000012000000000000010002656e000a;# deny code=10 by=memory action=see asker=10.0.0.1 type=- scope=-;
refused¦0201000030200000000000010002656e¦¦;# deny code=10 by=memory action=see asker=10.0.0.1 type=- scope=-;
refused¦0202000030000000000000010002656e¦¦;
refused¦02¦¦;
";

#[test]
fn changes_and_refusals_are_told(rt: HostRuntime) {
    assert_table(&rt, rt.alloc(), Answers, TABLE);
}
