use crate::tables::{Asking, Question, assert_table};
use attr_list::Attrs;
use search_filter::{Filter, FilterFault};
use std::alloc::Global;

// Whether a filter holds of the attributes beside it.
#[derive(Clone, Copy)]
struct Filters;

fn holds(alloc: Global, filter: &Filter, attributes: &str) -> Result<bool, FilterFault> {
    let attributes = Attrs::parse(alloc, attributes)?;
    Ok(filter.holds(&attributes))
}

impl Asking for Filters {
    type Fault = FilterFault;

    fn print(self, alloc: Global, row: Question<'_>, out: &mut String) -> Result<(), FilterFault> {
        let filter = Filter::parse(alloc, row.text)?;
        let told = holds(alloc, &filter, row.beside);
        drop(filter);
        Ok(out.push_str(if told? { "yes" } else { "no" })?)
    }
}

// The last rows are of filters that are long, or as deep as may be.
const TABLE: &str = "
holds¦(!(y=0))¦(y=0,1)¦yes
holds¦(!(y=0))¦¦yes
holds¦(!(y=0))¦y¦yes
holds¦(!(!(y=0)))¦(y=0,1)¦yes
holds¦(y=0)¦(y=0,1)¦yes
holds¦(y=*)¦y¦yes
holds¦(y=*)¦(y=0)¦yes
holds¦(y= * )¦y¦yes
holds¦(!(y=*))¦(x=0)¦yes
holds¦(Y=0)¦(y=0)¦yes
holds¦ ( y =0) ¦(y=0)¦yes
holds¦(x=34*)¦(x=34foo)¦yes
holds¦(x=*foo)¦(x=34FOO)¦yes
holds¦(x=3*f*o)¦(x=34foo)¦yes
holds¦(x=**)¦(x=a)¦yes
holds¦(x=*\\2a*)¦(x=a\\2Ab)¦yes
holds¦(x=a *)¦(x=a b)¦yes
holds¦(x=\\20a*)¦(x=ab)¦yes
holds¦(sn=Lu\\c4\\8di\\c4\\87)¦(sn=LUČIĆ)¦yes
holds¦(sn=Lu\\c4\\8d*)¦(sn=LUČIĆ)¦yes
holds¦(x=Straße)¦(x=STRASSE)¦yes
holds¦(x=*ss*)¦(x=Straße)¦yes
holds¦(x~=One Two)¦(x=ONE  TWO)¦yes
holds¦(x=\\41)¦(x=a)¦yes
holds¦(x=true)¦(x=TRUE)¦yes
holds¦(x=007)¦(x=7)¦yes
holds¦(x=\\FF\\00\\be)¦(x=\\ff\\00\\BE)¦yes
holds¦(x=)¦(x=)¦yes
holds¦(x>=3)¦(x=3)¦yes
holds¦(x>=3)¦(x=1,10)¦yes
holds¦(x<=3)¦(x=-5)¦yes
holds¦(x>=b)¦(x=B)¦yes
holds¦(x>=b)¦(x=Ba)¦yes
holds¦(x<=b)¦(x=a)¦yes
holds¦(x<=bb)¦(x=B)¦yes
holds¦(!(x>=3))¦(x=3,a)¦yes
holds¦(!(x>=true))¦(x=true)¦yes
holds¦(&(x=1)(y=2))¦(x=1),(y=2)¦yes
holds¦(& (x=1) (y=2) )¦(x=1),(y=2)¦yes
holds¦(|(x=1)(y=2))¦(y=2)¦yes
holds¦(!(&(x=1)(y=2)))¦(x=1),(y=3)¦yes
holds¦(!(|(x=1)(y=2)))¦(x=3)¦yes
holds¦(&(|(a=1)(b=1))(!(c=1)))¦(b=1),(c=2)¦yes
holds¦(a:b=1)¦(a:b=1)¦yes
holds¦(a\\2cb=1)¦(a\\2cb=1)¦yes
holds¦( &x=1)¦(&x=1)¦yes
holds¦(x==1)¦(x=\\3d1)¦yes
holds¦(x=~a)¦(x=\\7Ea)¦yes
holds¦(!(y=0))¦(y=0)¦no
holds¦(y=0)¦¦no
holds¦(y=0)¦y¦no
holds¦(y=*)¦(x=0)¦no
holds¦(!(y=*))¦y¦no
holds¦(x=34*)¦(x=3432)¦no
holds¦(x=**)¦x¦no
holds¦(x=**)¦(x=1)¦no
holds¦(x=a *)¦(x=ab)¦no
holds¦(x=a*a)¦(x=a)¦no
holds¦(x=*\\2a*)¦(x=ab)¦no
holds¦(x=1)¦(x=a)¦no
holds¦(x=1)¦(x=\\FF\\31)¦no
holds¦(x>=3)¦(x=2)¦no
holds¦(x>=3)¦(x=a)¦no
holds¦(x<=3)¦(x=4)¦no
holds¦(x>=b)¦(x=a)¦no
holds¦(x<=b)¦(x=ba)¦no
holds¦(x>=true)¦(x=true)¦no
holds¦(x>=3)¦x¦no
holds¦(!(x>=3))¦(x=3)¦no
holds¦(&(x=1)(y=2))¦(x=1)¦no
holds¦(|(x=1)(y=2))¦(x=2),(y=1)¦no
holds¦(!(|(x=1)(y=2)))¦(y=2)¦no
holds¦(!(&(x=1)(y=2)))¦(x=1),(y=2)¦no
holds¦(x=Bc)¦(x=b)¦no
holds¦(x=<<1000 *a>>*b)¦(x=<<20000 a>>)¦no
holds¦(x=<<1000 *a>>*b)¦(x=<<20000 a>>b)¦yes
holds¦(&<<10000 (x=1)>>)¦(x=1)¦yes
holds¦<<31 (!>>(a=1)<<31 )>>¦(a=1)¦no
holds¦¦¦! Syntax
holds¦ ¦¦! Syntax
holds¦x=1¦¦! Syntax
holds¦()¦¦! Syntax
holds¦(x)¦¦! Syntax
holds¦(x¦¦! Syntax
holds¦(x=1¦¦! Syntax
holds¦(x=1))¦¦! Syntax
holds¦(x=1)(y=1)¦¦! Syntax
holds¦(x=1) y¦¦! Syntax
holds¦(&)¦¦! Syntax
holds¦(|)¦¦! Syntax
holds¦(!)¦¦! Syntax
holds¦(!(x=1)(y=1))¦¦! Syntax
holds¦(&(x=1)¦¦! Syntax
holds¦(& (x=1) y)¦¦! Syntax
holds¦( &(x=1))¦¦! Syntax
holds¦(&x=1)¦¦! Syntax
holds¦(=1)¦¦! Syntax
holds¦(\\09=1)¦¦! Syntax
holds¦(a_b=1)¦¦! Syntax
holds¦(a*=1)¦¦! Syntax
holds¦(a,b=1)¦¦! Syntax
holds¦(a!=1)¦¦! Syntax
holds¦(a>b=1)¦¦! Syntax
holds¦(a>1)¦¦! Syntax
holds¦(a~1)¦¦! Syntax
holds¦(\\41=1)¦¦! Syntax
holds¦(\\zz=1)¦¦! Syntax
holds¦(a:=1)¦¦! Syntax
holds¦(a: =1)¦¦! Syntax
holds¦(a:\\09=1)¦¦! Syntax
holds¦(a=(b)¦¦! Syntax
holds¦(a=b\\)¦¦! Syntax
holds¦(a=\\4)¦¦! Syntax
holds¦(a=\\c4)¦¦! Syntax
holds¦(a=\\c4*\\8d)¦¦! Syntax
holds¦(a=x\0)¦¦! Syntax
holds¦(a=*\0)¦¦! Syntax
holds¦(a=\\FFx)¦¦! Syntax
holds¦(a=\\FF\\4)¦¦! Syntax
holds¦(a=\\FF*)¦¦! Syntax
holds¦(a=\\FF\\00*)¦¦! Syntax
holds¦(a>=\\zz*)¦¦! Syntax
holds¦(a>=\\FFx*)¦¦! Syntax
holds¦(a>=\0*)¦¦! Syntax
holds¦(a>=(*)¦¦! Syntax
holds¦(a!>=3*)¦¦! Syntax
holds¦<<60000 (>><<60000 )>>¦¦! Syntax
holds¦<<60000 (>>¦¦! Syntax
holds¦(x>=3*)¦¦! Wildcard
holds¦(x<=*)¦¦! Wildcard
holds¦(x~=*)¦¦! Wildcard
holds¦(x~=a*b)¦¦! Wildcard
holds¦(a>=3*\\zz)¦¦! Wildcard
holds¦(a>=\\FF*)¦¦! Wildcard
holds¦(a>=3*¦¦! Wildcard
holds¦(a>=3*(¦¦! Wildcard
holds¦(a>=\\c4*)¦¦! Wildcard
holds¦(&(a=1)(b>=*)(¦¦! Wildcard
holds¦<<32 (!>>(a=1)<<32 )>>¦¦! TooDeep
holds¦<<32 (&>>(<<32 )>>¦¦! TooDeep
holds¦<<30000 (&>><<30000 )>>¦¦! TooDeep
holds¦<<30000 (&>>¦¦! TooDeep
";

#[test]
fn filters_hold_or_have_their_fault(rt: HostRuntime) {
    assert_table(&rt, rt.alloc(), Filters, TABLE);
}
