//! Copies that no program makes: of a reply, an entry, the rows, a change and a person.
use sm_model::{
    Act, Bytes, Change, Copied, Entry, List, Mark, Moment, NoMemory, OfSecret, Person,
    RandomPassword, Reply, Request, Rows, Text,
};
use std::alloc::Global;
use std::process::Abort;
use std::test::Fail;

fn has_same_password(alloc: Global) -> Result<bool, NoMemory> {
    let reply = Reply::GetRandomPassword(RandomPassword {
        random_password: Text::fixed("p"),
    });
    match &reply.copy(alloc)? {
        Reply::GetRandomPassword(copy) => Ok(copy.random_password.as_str() == "p"),
        _ => Ok(false),
    }
}

fn entry(alloc: Global) -> Mark {
    let request = Request::DescribeSecret(OfSecret {
        secret_id: Text::fixed("n"),
    });
    Mark::Entry(Entry {
        moment: Moment(8),
        caller: Text::fixed("ADA"),
        by: Text::fixed("arn:aws:iam::000000000000:user/ada"),
        drawn: Bytes::empty(alloc),
        act: Act::Asked(request),
        prunes: true,
    })
}

fn has_same_caller(alloc: Global) -> Result<bool, NoMemory> {
    match &entry(alloc).copy(alloc)? {
        Mark::Entry(copy) => Ok(copy.caller.as_str() == "ADA"),
        Mark::Claim(_, _, _) | Mark::Fault => Ok(false),
    }
}

fn has_same_serial(alloc: Global) -> Result<bool, NoMemory> {
    let rows = Rows {
        next: 5,
        secrets: List::empty(alloc),
    };
    Ok(rows.copy(alloc)?.next == 5)
}

fn drops_the_same(alloc: Global) -> Result<bool, NoMemory> {
    match Change::Drop(3).copy(alloc)? {
        Change::Drop(serial) => Ok(serial == 3),
        _ => Ok(false),
    }
}

fn has_same_key(alloc: Global) -> Result<bool, NoMemory> {
    let person = Person {
        key: Text::fixed("ADA"),
        arn: Text::fixed("arn"),
        full: true,
    };
    Ok(person.copy(alloc)?.key.as_str() == "ADA")
}

#[test]
fn copies_are_the_same(rt: HostRuntime) -> Result<(), Fail> {
    let alloc = rt.alloc();
    assert!(rt; has_same_password(alloc)?, "a reply");
    assert!(rt; has_same_caller(alloc)?, "an entry");
    assert!(rt; has_same_serial(alloc)?, "rows");
    assert!(rt; drops_the_same(alloc)?, "a change");
    assert!(rt; has_same_key(alloc)?, "a person");
    Ok(())
}
