use crate::tables::{Asking, Question, assert_table, found};
use attr_list::{AttrFault, Attrs, Value, read_value};
use slp_tags::TagList;
use slp_text::NoMemory;
use std::alloc::Global;

#[derive(Clone, Copy)]
struct Attributes;

fn print_kind(value: &Value, out: &mut String) -> Result<(), NoMemory> {
    value.print_into(out)?;
    let kind = match value {
        Value::Bool(_) => " is a truth value",
        Value::Int(_) => " is an integer",
        Value::Opaque(_) => " is opaque",
        Value::Text(_) => " is a text",
    };
    Ok(out.push_str(kind)?)
}

fn print_value(alloc: Global, text: &str, out: &mut String) -> Result<(), AttrFault> {
    let value = read_value(alloc, text)?;
    let told = print_kind(&value, out);
    drop(value);
    Ok(told?)
}

// A copy of a list, one attribute after the other.
fn print_list(alloc: Global, text: &str, out: &mut String) -> Result<(), AttrFault> {
    let attrs = Attrs::parse(alloc, text)?.copy(alloc)?;
    for place in 0..attrs.len() {
        if place > 0 {
            out.push(',')?;
        }
        attrs.print_one(place, out)?;
    }
    Ok(())
}

fn print_with_list(alloc: Global, row: Question<'_>, out: &mut String) -> Result<(), AttrFault> {
    let attrs = Attrs::parse(alloc, row.text)?;
    let more = Attrs::parse(alloc, row.beside)?;
    let made = match row.word {
        "union" => attrs.union(alloc, &more)?,
        _ => attrs.updated(alloc, &more)?,
    };
    made.print_into(out)
}

fn print_with_tags(alloc: Global, row: Question<'_>, out: &mut String) -> Result<(), AttrFault> {
    let attrs = Attrs::parse(alloc, row.text)?;
    let tags = found(TagList::parse(alloc, row.beside))?;
    let made = match row.word {
        "selected" => attrs.select(alloc, &tags)?,
        _ => attrs.without(alloc, &tags)?,
    };
    made.print_into(out)
}

impl Asking for Attributes {
    type Fault = AttrFault;

    fn print(self, alloc: Global, row: Question<'_>, out: &mut String) -> Result<(), AttrFault> {
        match row.word {
            "value" => print_value(alloc, row.text, out),
            "list" => print_list(alloc, row.text, out),
            "union" | "updated" => print_with_list(alloc, row, out),
            _ => print_with_tags(alloc, row, out),
        }
    }
}

// Values with their kinds, lists, and lists with another or with tags.
const TABLE: &str = "
value¦ TRUE ¦¦true is a truth value
value¦falſe¦¦false is a truth value
value¦-0¦¦0 is an integer
value¦007¦¦7 is an integer
value¦-2147483648¦¦-2147483648 is an integer
value¦2147483648¦¦2147483648 is a text
value¦+5¦¦+5 is a text
value¦- 5¦¦- 5 is a text
value¦\\fF\\00\\bE¦¦\\FF\\00\\BE is opaque
value¦\\FF¦¦\\FF is opaque
value¦ Two \t words\\2c č ¦¦Two words\\2C č is a text
value¦¦¦ is a text
list¦¦¦
list¦ \t ¦¦
list¦( Color = RED )¦¦(color=RED)
list¦ KW , kw¦¦kw
list¦b,a¦¦a,b
list¦(a=1,two,TRUE,3)¦¦(a=1,two,true,3)
list¦(a=1),(b=x),(A=2,1)¦¦(a=1,2),(b=x)
list¦a,(a=1)¦¦(a=1)
list¦(a=1),a¦¦(a=1)
list¦(a=One,ONE,  one )¦¦(a=One)
list¦(a=x\\2ay,X*Y)¦¦(a=x*y)
list¦(x=007,7,-0)¦¦(x=7,0)
list¦(a=true,1,TRUE,tru)¦¦(a=true,1,tru)
list¦(a=)¦¦(a=)
list¦(a=,x,)¦¦(a=,x)
list¦(a\\2cb=x\\2cy)¦¦(a\\2Cb=x\\2Cy)
list¦(o=\\FF\\00\\be,\\ff\\00\\BE)¦¦(o=\\FF\\00\\BE)
list¦(o=\\FF)¦¦(o=\\FF)
list¦ (a=1) , (b=2) ¦¦(a=1),(b=2)
list¦(Straße=1),(STRASSE=2)¦¦(strasse=1,2)
list¦(color=RED)¦¦(color=RED)
list¦kw¦¦kw
list¦a,b¦¦a,b
list¦(a=1,two,true,3)¦¦(a=1,two,true,3)
list¦(a=1,2),(b=x)¦¦(a=1,2),(b=x)
list¦(a=1)¦¦(a=1)
list¦(a=One)¦¦(a=One)
list¦(a=x*y)¦¦(a=x*y)
list¦(x=7,0)¦¦(x=7,0)
list¦(a=true,1,tru)¦¦(a=true,1,tru)
list¦(a=,x)¦¦(a=,x)
list¦(a\\2Cb=x\\2Cy)¦¦(a\\2Cb=x\\2Cy)
list¦(o=\\FF\\00\\BE)¦¦(o=\\FF\\00\\BE)
list¦(a=1),(b=2)¦¦(a=1),(b=2)
list¦(strasse=1,2)¦¦(strasse=1,2)
list¦c,(B=1,2),(a=x)¦¦(a=x),(b=1,2),c
selected¦<<10000 t%,>>t¦T9999,t,t20000,*t100¦t,t100,t9999
list¦(t=<<10000 v%,>>V1)¦¦(t=<<9999 v%,>>v10000)
updated¦(a=1),(b=2),c¦(B=3),(d=4)¦(a=1),(b=3),c,(d=4)
updated¦(a=1)¦¦(a=1)
updated¦¦(a=1)¦(a=1)
updated¦(a=1,2)¦a¦a
union¦(a=1),b¦(a=2,1),(b=x),c¦(a=1,2),(b=x),c
union¦¦(a=1)¦(a=1)
without¦(a=1),(ab=2),c¦A*¦c
without¦(a=1),b¦¦
without¦(a=1),b¦x¦(a=1),b
selected¦(a=1),(ab=2),c¦*b,c¦(ab=2),c
selected¦(a=1),c¦¦(a=1),c
selected¦(a=1),c¦x¦
value¦\\41¦¦! BadEscape
value¦x\\ff¦¦! BadEscape
value¦\\FF\\4¦¦! BadEscape
value¦\\fe¦¦! BadEscape
value¦\\¦¦! BadEscape
value¦a\\2¦¦! BadEscape
value¦\\zz(¦¦! BadEscape
value¦a(b¦¦! BadList
value¦\\FFx¦¦! BadList
value¦\\FF \\00¦¦! BadList
value¦a=b¦¦! BadList
value¦a,b¦¦! BadList
value¦\u{1}¦¦! BadList
value¦(\\zz¦¦! BadList
list¦(a=\\41)¦¦! BadEscape
list¦\\41¦¦! BadEscape
list¦(\\4=1)¦¦! BadEscape
list¦(a=1),(b=\\zz)¦¦! BadEscape
list¦(a=\\41),(=1)¦¦! BadEscape
list¦(a=1,\\¦¦! BadEscape
list¦(=1)¦¦! BadTag
list¦( =1)¦¦! BadTag
list¦(a*=1)¦¦! BadTag
list¦a_b¦¦! BadTag
list¦(a=1),(=\\41)¦¦! BadTag
list¦a)¦¦! BadTag
list¦(a<=1)¦¦! BadTag
list¦(a)b=1)¦¦! BadTag
list¦a,¦¦! BadList
list¦,a¦¦! BadList
list¦a,,b¦¦! BadList
list¦ , ¦¦! BadList
list¦(a=1¦¦! BadList
list¦(a=1)b¦¦! BadList
list¦(a¦¦! BadList
list¦(a=b(c)¦¦! BadList
list¦(a=\\FFx)¦¦! BadList
list¦(a=1)),b¦¦! BadList
";

#[test]
fn attributes_are_read_and_combined(rt: HostRuntime) {
    assert_table(&rt, rt.alloc(), Attributes, TABLE);
}
