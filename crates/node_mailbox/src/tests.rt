ghost use Rattle.std.specs.Prelude.{◌≡◌, ◌≢◌, ◌<◌, ◌≤◌, ◌+◌, ◌^◌, length, AllPairs, IfOk};
ghost use Rattle.node_mailbox.specs.Post.{AreOf};

use super::*;
use ring_math::{Id, OutOfMemory};
use std::alloc::Global;
use std::sync::Wait;
use std::test::Fail;
use std::thread;
use wire_msg::Frame;

/// A number as a frame of eight bytes.
fn frame_of(alloc: Global, number: u64) -> Result<Frame, OutOfMemory> {
    Frame::copy_of(alloc, &number.to_be_bytes())
}

fn number_in(frame: &Frame) -> Option<u64> {
    Some(u64::from_be_bytes(frame.as_slice().try_into().ok()?))
}

/// Puts the number. Where memory is refused the frame comes back whole, and is put once more.
fn put_number<R: Wait>(
    rt: &R,
    alloc: Global,
    mailbox: &Mailbox,
    pass: &mut MailPass,
    number: u64,
) -> Option<()>
    requires { pass.old.mailbox ≡ mailbox.now }
    ensures { pass.new.mailbox ≡ mailbox.now }
{
    let frame = frame_of(alloc, number).ok()?;
    let Err(back) = mailbox.put(rt, pass, frame) else {
        return Some(());
    };
    if number_in(&back)? != number {
        return None;
    }
    mailbox.put(rt, pass, back).ok()
}

fn take_number<R: Wait>(rt: &R, mailbox: &Mailbox, pass: &mut MailPass) -> Option<u64>
    requires { pass.old.mailbox ≡ mailbox.now }
    ensures { pass.new.mailbox ≡ mailbox.now }
{
    number_in(&mailbox.take(rt, pass)?)
}

/// Even numbers go in by one pass and odd ones by another, over more than three blocks of the queue.
fn put_by_turns<R: Wait>(
    rt: &R,
    alloc: Global,
    mailbox: &Mailbox,
    even: &mut MailPass,
    odd: &mut MailPass,
) -> Option<()>
    requires { (even.old.mailbox ≡ mailbox.now) × (odd.old.mailbox ≡ mailbox.now) }
    ensures { (even.new.mailbox ≡ mailbox.now) × (odd.new.mailbox ≡ mailbox.now) }
{
    for number in 0..50 {
        put_number(rt, alloc, mailbox, even, 2 * number)?;
        put_number(rt, alloc, mailbox, odd, 2 * number + 1)?;
    }
    Some(())
}

/// How many of 0, 1, 2 and so on come out in this order, up to the first that does not.
fn taken_in_order<R: Wait>(rt: &R, mailbox: &Mailbox, pass: &mut MailPass) -> u64
    requires { pass.old.mailbox ≡ mailbox.now }
    ensures { pass.new.mailbox ≡ mailbox.now }
{
    for number in 0..100 {
        if take_number(rt, mailbox, pass) != Some(number) {
            return number;
        }
    }
    100
}

#[test]
fn what_went_in_comes_out_in_order(rt: HostRuntime) -> Result<(), Fail> {
    let (mailbox, mut pass) = Mailbox::new(rt.alloc())?;
    assert!(rt; mailbox.take(&rt, &mut pass).is_none());
    let mut other = mailbox.split(&rt, &mut pass)?;
    put_by_turns(&rt, rt.alloc(), &mailbox, &mut pass, &mut other).ok_or("not put")?;
    mailbox.join(&rt, &mut pass, other);
    assert_eq!(rt; taken_in_order(&rt, &mailbox, &mut pass), 100);
    assert!(rt; mailbox.take(&rt, &mut pass).is_none());
    Ok(())
}

/// Puts 50,000 numbers, and after each takes what stands in front.
fn exchange_by<R: Wait>(
    rt: &R,
    alloc: Global,
    mailbox: &Mailbox,
    pass: &mut MailPass,
    first: u64,
) -> Option<Vec<u64>>
    requires pass { pass.old.mailbox ≡ mailbox.now }
    requires first { first + 50000 < 2 ^ 64 }
    ensures { pass.new.mailbox ≡ mailbox.now }
{
    let mut taken = Vec::with_capacity(alloc, 50_000).ok()?;
    for number in first..first + 50_000 {
        put_number(rt, alloc, mailbox, pass, number)?;
        if let Some(front) = take_number(rt, mailbox, pass) {
            taken.push(front).ok()?;
        }
    }
    Some(taken)
}

fn exchange<R: Wait>(
    rt: &R,
    alloc: Global,
    mailbox: &Mailbox,
    mut pass: MailPass,
    first: u64,
) -> (MailPass, Option<Vec<u64>>)
    requires pass { pass.mailbox ≡ mailbox.now }
    requires first { first + 50000 < 2 ^ 64 }
    ensures { result.0.mailbox ≡ mailbox.now }
{
    let taken = exchange_by(rt, alloc, mailbox, &mut pass, first);
    (pass, taken)
}

/// All that is left.
fn drain<R: Wait>(rt: &R, alloc: Global, mailbox: &Mailbox, pass: &mut MailPass) -> Option<Vec<u64>>
    requires { pass.old.mailbox ≡ mailbox.now }
    ensures { pass.new.mailbox ≡ mailbox.now }
{
    let mut taken = Vec::new(alloc);
    for _ in 0..200_000 {
        match take_number(rt, mailbox, pass) {
            Some(front) => taken.push(front).ok()?,
            None => return Some(taken),
        }
    }
    None
}

/// Marks each number, None where one is too large or comes a second time.
fn mark_each(seen: &mut [bool], numbers: &[u64]) -> Option<()> {
    for number in numbers {
        let mark = seen.get_mut(usize::try_from(*number).ok()?)?;
        if *mark {
            return None;
        }
        *mark = true;
    }
    Some(())
}

#[test]
fn two_threads_pass_100000_frames_and_each_arrives_once(rt: HostRuntime) -> Result<(), Fail> {
    let alloc = rt.alloc();
    let (made, mut one) = Mailbox::new(alloc)?;
    let two = made.split(&rt, &mut one)?;
    let mailbox = &made;
    let ((mut pass, first), (other, second)) = thread::join(
        &rt,
        move || exchange(&rt, alloc, mailbox, one, 0),
        move || exchange(&rt, alloc, mailbox, two, 50_000),
    );
    mailbox.join(&rt, &mut pass, other);
    let rest = drain(&rt, alloc, mailbox, &mut pass).ok_or("never empty")?;
    let mut seen = vec![in alloc; false; 100_000]?;
    mark_each(&mut seen, &first.ok_or("refused at the first")?).ok_or("twice at the first")?;
    mark_each(&mut seen, &second.ok_or("refused at the second")?).ok_or("twice at the second")?;
    mark_each(&mut seen, &rest).ok_or("twice in the rest")?;
    assert!(rt; seen.iter().all(|mark| *mark));
    Ok(())
}

/// Identifiers that fall from place to place.
fn falling_ids(alloc: Global) -> Result<Vec<Id>, OutOfMemory>
    ensures count { IfOk result (λ ids. length ids.items ≡ 64) }
    ensures differ { IfOk result (λ ids. AllPairs ◌≢◌ ids.items) }
{
    let mut ids = Vec::new(alloc);
    for place in 0..64u64 {
        ids.push(Id(u128::from(1000 - place)))?;
    }
    Ok(ids)
}

/// The first place that is not found by its identifier, or at which a number that was put is not the one that is taken.
fn first_that_fails<R: Wait>(
    rt: &R,
    alloc: Global,
    post: &Post,
    passes: &mut Passes,
    ids: &[Id],
) -> Result<Option<usize>, OutOfMemory>
    requires of { AreOf passes.old post.now }
    requires ids { length ids.now ≤ length post.now.nodes }
    ensures { AreOf passes.new post.now }
{
    for place in 0..ids.len() {
        let frame = frame_of(alloc, place as u64)?;
        if post.place(ids[place]) != Some(place) || passes.put(rt, post, place, frame).is_err() {
            return Ok(Some(place));
        }
    }
    for place in 0..ids.len() {
        let taken = passes.take(rt, post, place);
        if taken.and_then(|frame| number_in(&frame)) != Some(place as u64) {
            return Ok(Some(place));
        }
    }
    Ok(None)
}

// Both passes put and take at each place, and what the one put comes out by the other, at its place alone.
#[test]
fn a_post_of_64_nodes_finds_each_place(rt: HostRuntime) -> Result<(), Fail> {
    let ids = falling_ids(rt.alloc())?;
    let (post, mut passes) = Post::new(rt.alloc(), &ids)?;
    let mut others = passes.split(&rt, rt.alloc(), &post)?;
    assert_eq!(rt;
        first_that_fails(&rt, rt.alloc(), &post, &mut passes, &ids)?,
        None
    );
    assert_eq!(rt;
        first_that_fails(&rt, rt.alloc(), &post, &mut others, &ids)?,
        None
    );
    assert_eq!(rt; post.place(Id(7)), None);
    let frame = frame_of(rt.alloc(), 5)?;
    assert!(rt; others.put(&rt, &post, 63, frame).is_ok());
    passes.join(&rt, &post, others);
    assert!(rt; passes.take(&rt, &post, 62).is_none());
    let frame = passes
        .take(&rt, &post, 63)
        .ok_or("nothing at the last place")?;
    assert_eq!(rt; number_in(&frame), Some(5));
    Ok(())
}

fn is_shared<T: Send + Sync>(_value: &T) {}

fn is_sent<T: Send>(_value: &T) {}

#[test]
fn threads_share_mailboxes_and_posts(rt: HostRuntime) -> Result<(), Fail> {
    let (mailbox, pass) = Mailbox::new(rt.alloc())?;
    is_shared(&mailbox);
    is_sent(&pass);
    let (post, passes) = Post::new(rt.alloc(), &[Id(1)])?;
    is_shared(&post);
    is_sent(&passes);
    Ok(())
}
