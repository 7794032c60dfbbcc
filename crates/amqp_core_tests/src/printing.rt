//! What is printed of a configuration: never the credentials.
use crate::pairs::client_hello;
use amqp_core::ClientHello;
use std::alloc::Global;
use std::test::Fail;

/// The length of a start-ok frame, most of which is the response.
const FRAME: usize = 100;

/// What is printed of the hello.
fn printed(alloc: Global, hello: &ClientHello) -> Result<String, Fail> {
    Ok(format!(in alloc; "{hello:?}")?)
}

#[test]
fn a_hello_prints_without_its_response(rt: HostRuntime) -> Result<(), Fail> {
    let alloc = rt.alloc();
    let hello = client_hello(alloc, FRAME)?;
    let text = printed(alloc, &hello);
    drop(hello);
    assert_eq!(rt;
        text?.as_str(),
        "ClientHello { properties: {}, mechanism: \"PLAIN\", locale: \"en_US\", virtual_host: \"/\", .. }"
    );
    Ok(())
}
